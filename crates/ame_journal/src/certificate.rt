//! A witness that a fragment is blocked.

use ame_term::Locs;

/// Says that the member `number`, once it is active, makes `steps` steps and with them exactly the new locations `fresh`, in order.
/// Its condition is false there.
#[derive(Drop)]
pub struct Certificate {
    pub number: u64,
    pub steps: u64,
    pub fresh: Locs,
}
