//! The lines of the text.
ghost use Rattle.std.specs.Prelude.{◌≡◌, ◌++◌, OnOk, decimal};
ghost use Rattle.std.specs.List.{flat_map, range_with_len};
ghost use Rattle.ame_gen.specs.Template.{account_line, transfer_line, report_line, print_of};

use crate::no_memory::NoMemory;
use crate::transfers::Transfer;
use itoa::Buffer;

/// Appends bytes.
pub(crate) fn write(text: &mut Vec<u8>, bytes: &[u8]) -> Result<(), NoMemory>
    ensures { OnOk result (text.new.items ≡ text.old.items ++ bytes.now) }
{
    text.extend_from_slice(bytes)?;
    Ok(())
}

/// Appends bytes, and a number after them.
fn write_before(text: &mut Vec<u8>, bytes: &[u8], number: u32) -> Result<(), NoMemory>
    ensures { OnOk result (text.new.items ≡ text.old.items ++ bytes.now ++ decimal number) }
{
    let mut buffer = Buffer::new();
    write(text, bytes)?;
    write(text, buffer.format(number).as_bytes())
}

/// Appends the line of an account, which has this much at the beginning.
pub(crate) fn write_account(text: &mut Vec<u8>, account: u32, start: u32) -> Result<(), NoMemory>
    ensures { OnOk result (text.new.items ≡ text.old.items ++ account_line start account) }
{
    write_before(text, b"(let a", account)?;
    write_before(text, b" (ref p ", start)?;
    write(text, b")\n")
}

/// Appends the line of a transfer.
pub(crate) fn write_transfer(text: &mut Vec<u8>, transfer: Transfer) -> Result<(), NoMemory>
    ensures { OnOk result (text.new.items ≡ text.old.items ++ transfer_line transfer) }
{
    let Transfer { from, to, amount } = transfer;
    write_before(text, b"(async (do (blockUntil (not (< (get a", from)?;
    write_before(text, b") ", amount)?;
    write_before(text, b"))) (set a", from)?;
    write_before(text, b" (- (get a", from)?;
    write_before(text, b") ", amount)?;
    write_before(text, b")) (set a", to)?;
    write_before(text, b" (+ (get a", to)?;
    write_before(text, b") ", amount)?;
    write(text, b")) (set done (+ (get done) 1))))\n")
}

/// Appends the line that waits for all transfers and prints each account.
pub(crate) fn write_report(text: &mut Vec<u8>, size: u32) -> Result<(), NoMemory>
    ensures { OnOk result (text.new.items ≡ text.old.items ++ report_line size) }
{
    write_before(text, b"(async (do (blockUntil (= (get done) ", size)?;
    write(text, b"))")?;
    write_prints(text)?;
    write(text, b"))\n")
}

/// Appends what prints each account.
fn write_prints(text: &mut Vec<u8>) -> Result<(), NoMemory>
    ensures { OnOk result (text.new.items ≡ text.old.items ++ flat_map print_of (range_with_len 0 8)) }
{
    for account in 0..8u32 {
        write_before(text, b" (print (get a", account)?;
        write(text, b"))")?;
    }
    Ok(())
}
