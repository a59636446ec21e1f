//! The members that wait when all that are left are blocked.

ghost use Rattle.std.specs.Prelude.{◌≡◌, ◌++◌, IfOk, OnOk};
ghost use Rattle.std.specs.List.{flat_map};
ghost use Rattle.ame_views.specs.Waits as spec;

use ame_journal::Certificate;
use ame_page::Page;
use ame_term::NoMemory;
use std::alloc::Global;

/// Returns a line for each member of a blocked run: after how many steps of its fragment its condition is false in the store that is left.
pub fn waits_of(alloc: Global, certificates: &[Certificate]) -> Result<Vec<u8>, NoMemory>
    ensures { IfOk result (λ page. page.items ≡ flat_map spec.wait_line certificates.now) }
{
    let mut page = Page::new(alloc);
    append_waits(&mut page, certificates)?;
    Ok(page.into_bytes())
}

/// Appends a line for each certificate.
fn append_waits(page: &mut Page, certificates: &[Certificate]) -> Result<(), NoMemory>
    ensures { OnOk result (page.new ≡ page.old ++ flat_map spec.wait_line certificates.now) }
{
    for certificate in certificates {
        append_wait(page, certificate)?;
    }
    Ok(())
}

/// Appends the line of a certificate.
#[tactic(auto, unfolding(crate::specs::Waits::wait_line))]
fn append_wait(page: &mut Page, certificate: &Certificate) -> Result<(), NoMemory>
    ensures { OnOk result (page.new ≡ page.old ++ spec.wait_line certificate.now) }
{
    page.add(b"task ")?;
    page.add_number(certificate.number)?;
    page.add(b": its condition is false after ")?;
    page.add_number(certificate.steps)?;
    page.add(b" steps\n")
}
