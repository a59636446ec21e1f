//! The whole text.
ghost use Rattle.std.specs.Prelude.{◌≡◌, ◌++◌, ◌≤◌, ◌<◌, ◌*◌, IfOk, OnOk, vec_len};
ghost use Rattle.std.specs.List.{flat_map};
ghost use Rattle.ame_gen.specs.Template.{program_text, account_lines, transfer_lines};

use crate::lines::{write, write_account, write_report, write_transfer};
use crate::no_memory::NoMemory;
use crate::numbers::{Numbers, SEED_LIMIT};
use crate::transfers::draw_transfer;
use std::alloc::Global;

/// The most transfers that a text may have.
pub const SIZE_LIMIT: u32 = 4_000;

/// Returns the text of a program with as many transfers as `size`, which `seed` determines. Its cost is linear in the size.
pub fn generate(alloc: Global, seed: u32, size: u32) -> Result<Vec<u8>, NoMemory>
    requires seed { seed ≤ SEED_LIMIT }
    requires some { 1 ≤ size }
    requires most { size ≤ SIZE_LIMIT }
    ensures text { IfOk result (λ text. text.items ≡ program_text seed size) }
    ensures small { IfOk result (λ text. vec_len text < 600000) }
{
    let mut text = Vec::new(alloc);
    write_accounts(&mut text, 9 * size)?;
    write(&mut text, b"(let done (ref p 0)\n(do\n")?;
    write_transfers(&mut text, seed, size)?;
    write_report(&mut text, size)?;
    write(&mut text, b"))))))))))\n")?;
    Ok(text)
}

/// Appends the lines of the accounts.
fn write_accounts(text: &mut Vec<u8>, start: u32) -> Result<(), NoMemory>
    ensures { OnOk result (text.new.items ≡ text.old.items ++ account_lines start) }
{
    for account in 0..8u32 {
        write_account(text, account, start)?;
    }
    Ok(())
}

/// Appends the lines of the transfers.
fn write_transfers(text: &mut Vec<u8>, seed: u32, size: u32) -> Result<(), NoMemory>
    requires { seed ≤ SEED_LIMIT }
    ensures { OnOk result (text.new.items ≡ text.old.items ++ transfer_lines seed size) }
{
    let mut numbers = Numbers::new(seed);
    for _ in 0..size {
        write_transfer(text, draw_transfer(&mut numbers))?;
    }
    Ok(())
}
