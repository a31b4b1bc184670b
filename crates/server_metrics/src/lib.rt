//! The page on which a server reports how it stands, as bytes in and bytes out: what a request of HTTP/1.1 asks for, the text that
//! answers it, and figures in the text format of Prometheus.
#![tactic(auto)]

mod answer;
mod exchange;
mod families;
mod figures;
mod health;
mod metrics;
mod overview;
mod page;
mod request;
mod times;

pub use answer::{Status, response};
pub use exchange::{hear, pass_over, write_page};
pub use metrics::{ClientRow, RefusalRow, Row, ServerReadings, put_metrics};
pub use page::{health_page, metrics_page, overview_page, status_page};
pub use request::{MOST_FIELDS, PageRequest, read_request};
pub use times::{LineSeconds, TimeRow};
