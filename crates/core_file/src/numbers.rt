//! Numbers at the end of bytes, the low byte first.

ghost use Rattle.std.specs.Prelude.{◌≡◌, ◌++◌, ◌<◌, ◌^◌, ◌+◌, flat_map, length, OnOk};
ghost use Rattle.rrv_model.specs.RecordText.{number};
ghost use Rattle.core_file.specs.Headers.{half, zeros};

use std::alloc::AllocError;

/// The two bytes of a number.
pub(crate) fn put_half(out: &mut Vec<u8>, n: u16) -> Result<(), AllocError>
    ensures { OnOk result (out.new.items ≡ out.old.items ++ half n) }
{
    out.extend_from_slice(&n.to_le_bytes())
}

/// The four bytes of a number.
pub(crate) fn put_number(out: &mut Vec<u8>, n: u32) -> Result<(), AllocError>
    ensures { OnOk result (out.new.items ≡ out.old.items ++ number n) }
{
    out.extend_from_slice(&n.to_le_bytes())
}

/// The numbers, four bytes each.
pub(crate) fn put_numbers(out: &mut Vec<u8>, numbers: &[u32]) -> Result<(), AllocError>
    ensures { OnOk result (out.new.items ≡ out.old.items ++ flat_map number numbers.now) }
{
    for n in numbers {
        put_number(out, *n)?;
    }
    Ok(())
}

/// So many zeros.
pub(crate) fn put_zeros(out: &mut Vec<u8>, count: u32) -> Result<(), AllocError>
    ensures { OnOk result (out.new.items ≡ out.old.items ++ zeros count) }
{
    let end = out.len() + count as usize;
    out.resize(end, 0)
}
