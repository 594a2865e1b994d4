//! The arrays of the core.

ghost use Rattle.std.specs.Prelude.{◌≡◌, ◌≤◌, true, IfOk};
ghost use Rattle.hc_cbuild.specs.Names.{is_name};
ghost use Rattle.hc_core_c.specs.Code as spec;

use hc_cast::CArray;
use hc_cbuild::word;
use hc_list::List;
use std::alloc::{AllocError, Global};

fn array(name: &[u8], length: u32) -> CArray
    requires { is_name name.now ≡ true }
    ensures { result ≡ spec.array name.now length }
{
    CArray {
        name: word(name),
        length,
    }
}

/// The arrays of the core for so many processes and channels.
pub fn core_arrays(alloc: Global, processes: u32, channels: u32) -> Result<List<CArray>, AllocError>
    requires { processes ≤ 64 }
    ensures { IfOk result (λ found. found ≡ spec.core_arrays processes channels) }
{
    let offers = channels.max(1);
    let mut found = List::new(alloc);
    found.push(array(b"a_phase", processes))?;
    found.push(array(b"a_bounded", processes))?;
    found.push(array(b"a_moves", processes * 64))?;
    found.push(array(b"a_send", offers))?;
    found.push(array(b"a_receive", offers))?;
    found.push(array(b"a_into", offers))?;
    found.push(array(b"a_met", processes))?;
    found.push(array(b"a_steps", 1))?;
    found.push(array(b"a_limit", 1))?;
    found.push(array(b"a_stop", 1))?;
    found.push(array(b"a_self", 1))?;
    found.push(array(b"a_woke", processes))?;
    Ok(found)
}
