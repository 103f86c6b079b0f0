ghost use Rattle.std.specs.Prelude.{◌≡◌, ◌++◌, OnOk, OnErr};
ghost use Rattle.schedule.specs.Items.{item_text};

use crate::Item2;
use crate::row::{Field, put_block, put_row};
use zbase::{Bytes, Memory};

fn put_item(item: &Item2, out: &mut Bytes) -> Result<(), Memory>
    ensures { OnOk result (out.new ≡ out.old ++ item_text item.now) }
{
    match item {
        Item2::Request(worker, bytes) => {
            let length = bytes.len() as u64;
            let fields = [Field::Number(*worker as u64), Field::Number(length)];
            put_row(out, b"request", &fields)?;
            put_block(out, bytes.as_slice())
        }
        Item2::Step(worker) => put_row(out, b"step", &[Field::Number(*worker as u64)]),
        Item2::Clock(stamp) => put_row(out, b"clock", &[Field::Id(stamp.0)]),
        Item2::Stop(call, seed) => put_row(
            out,
            b"stop",
            &[Field::Number(*call), Field::Number(*seed)],
        ),
        Item2::Fail(call, seed) => put_row(
            out,
            b"fail",
            &[Field::Number(*call), Field::Number(*seed)],
        ),
        Item2::Pack(before) => put_row(out, b"pack", &[Field::Id(before.0)]),
        Item2::End => put_row(out, b"end", &[]),
    }
}

/// Writes one line of a schedule at the end, as it is read again: of a request with its bytes. For want of memory
/// the bytes stay as they were.
pub fn write_item(item: &Item2, out: &mut Bytes) -> Result<(), Memory>
    ensures ok { OnOk result (out.new ≡ out.old ++ item_text item.now) }
    ensures err { OnErr result (out.new ≡ out.old) }
{
    let mut text = Bytes::new(out.alloc());
    put_item(item, &mut text)?;
    out.append(text.as_slice())
}
