//! Names of tenants.
ghost use Rattle.std.specs.Prelude.{◌≡◌, ◌↔◌, IsSome, IfSome};
ghost use Rattle.std.specs.List.{list_all};
ghost use Rattle.line_protocol.specs.StepSpelling.{IsName, is_tenant_byte};

use stamps::Tag;
use std::marker::Model;

/// The name of a tenant: 1 to `MAX_NAME_LEN` bytes of `a-z 0-9 _`. A contract sees a name as its bytes.
#[derive(Clone, Copy, Debug, PartialEq, Eq)]
pub struct Name {
    // Each name is spelled as a tag is.
    text: Tag,
}

impl Model for Name {
    ghost use Rattle.std.specs.Prelude.{ℕ, List};

    ghost Value = { List ℕ };

    ghost use Rattle.line_protocol.specs.StepSpelling.{IsName};

    ghost view = { λ n. n.text };

    ghost invariant = { λ n. IsName n.text };

    ghost inverse = { λ bytes. record { text = bytes } };
}

impl Name {
    /// The name of these bytes. `None` where they are none or more than `MAX_NAME_LEN`, or one is not of `a-z 0-9 _`.
    pub fn read(bytes: &[u8]) -> Option<Name>
        ensures exact { IsSome result ↔ IsName bytes.now }
        ensures value { IfSome result (λ name. name ≡ bytes.now) }
    {
        if bytes.is_empty() || !all_tenant_bytes(bytes) {
            return None;
        }
        Some(Name {
            text: Tag::read(bytes)?,
        })
    }

    /// The 1 to `MAX_NAME_LEN` bytes, as they are printed.
    pub fn as_bytes(&self) -> &[u8]
        ensures bytes { result.now ≡ self.now }
        ensures valid { IsName result.now }
    {
        self.text.as_bytes()
    }
}

fn all_tenant_bytes(bytes: &[u8]) -> bool
    ensures { result ≡ list_all is_tenant_byte bytes.now }
{
    bytes
        .iter()
        .all(|&byte| matches!(byte, b'a'..=b'z' | b'0'..=b'9' | b'_'))
}
