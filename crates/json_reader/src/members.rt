//! The members of an object in a list, with keys that are borrowed. For few members that is much faster than a map.
ghost use Rattle.std.specs.Prelude.{◌≡◌, OnOk};
ghost use Rattle.serde_json.specs.Data.{put};
ghost use Rattle.serde_json.specs.View.{view};
ghost use Rattle.json_reader.specs.Members.{members_of};

use serde_json::Value;
use std::alloc::AllocError;
use std::cmp::Ordering;

/// Puts a member into a list, where its key belongs. Of several members with one key the last stays.
pub(crate) fn put_member<'a>(
    members: &mut Vec<(&'a str, Value)>,
    key: &'a str,
    value: Value,
) -> Result<(), AllocError>
    ensures { OnOk result (members_of members.new.items ≡ put key.now (view value) (members_of members.old.items)) }
{
    for place in 0..members.len() {
        match key.cmp(members[place].0) {
            Ordering::Less => {
                members.insert(place, (key, value))?;
                return Ok(());
            }
            Ordering::Equal => {
                members[place].1 = value;
                return Ok(());
            }
            Ordering::Greater => {}
        }
    }
    members.push((key, value))?;
    Ok(())
}
