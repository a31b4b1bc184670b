//! What a COMMIT does to the index.
ghost use Rattle.std.specs.Prelude.{◌≡◌};
ghost use Rattle.secondary_index.specs.Index.{HasPlace, with_tag};

use secondary_index::TagIndex;
use version_chain::StoredRecord;

/// Moves an item under the tag of its latest committed version. One that the index does not know stays out of it where this version has
/// no tag. The key of such a version is read only where the index has tags.
#[inline(always)]
pub(crate) fn move_item(index: &mut TagIndex, chain: u32, latest: &StoredRecord)
    requires { HasPlace index.old latest.now.key }
    ensures { index.new ≡ record {
      room = index.old.room;
      tags = with_tag index.old.tags latest.now.key latest.now.tag;
    } }
{
    if !index.has_tags() && latest.tag_len() == 0 {
        return;
    }
    let (key, tag) = latest.key_and_tag();
    index.move_numbered(chain, &key, tag);
}
