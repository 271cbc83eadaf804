//! The aborts that the machine posts (codes: MVS System Codes; retry, TERM-only and merging are this profile's).

ghost use Rattle.std.specs.Prelude.{◌≡◌};
ghost use Rattle.rtm_model.specs.Posts.{abterm_abort, cancel_abort, detach_abort, mother_abort, srb_abort, step_abort};

use rtm_codes::Code;
use rtm_model::{Abort, Class};
use rtm_sdwa::Sdwa;

/// The operator's CANCEL.
pub(crate) fn cancel_abort(index: u32, dump: bool) -> Abort
    ensures { result ≡ cancel_abort index dump }
{
    Abort {
        class: Class::Cancel,
        from: index,
        code: Code::Sys(if dump { 0x122 } else { 0x222 }),
        reason: None,
        dump,
        retry: false,
        term_only: true,
    }
}

pub(crate) fn detach_abort(index: u32, stae: bool) -> Abort
    ensures { result ≡ detach_abort index stae }
{
    Abort {
        class: Class::Detach,
        from: index,
        code: Code::Sys(if stae { 0x33E } else { 0x13E }),
        reason: None,
        dump: false,
        retry: false,
        term_only: !stae,
    }
}

/// The mother begins to end.
pub(crate) fn mother_abort(index: u32) -> Abort
    ensures { result ≡ mother_abort index }
{
    Abort {
        class: Class::Mother,
        from: index,
        code: Code::Sys(0x13E),
        reason: None,
        dump: false,
        retry: false,
        term_only: true,
    }
}

/// The job step is to end, by the record of the error that ended another unit.
pub(crate) fn step_abort(index: u32, cause: &Sdwa) -> Abort
    ensures { result ≡ step_abort index cause.now }
{
    Abort {
        class: Class::Step,
        from: index,
        code: cause.code,
        reason: cause.reason,
        dump: false,
        retry: false,
        term_only: true,
    }
}

pub(crate) fn abterm_abort(
    index: u32,
    code: Code,
    reason: Option<u32>,
    dump: bool,
    retry: bool,
) -> Abort
    ensures { result ≡ abterm_abort index code reason dump retry }
{
    Abort {
        class: Class::Abterm,
        from: index,
        code,
        reason,
        dump,
        retry,
        term_only: false,
    }
}

/// An SRB's error is percolated to its related task.
pub(crate) fn srb_abort(index: u32, cause: &Sdwa) -> Abort
    ensures { result ≡ srb_abort index cause.now }
{
    Abort {
        class: Class::Srb,
        from: index,
        code: cause.code,
        reason: cause.reason,
        dump: false,
        retry: true,
        term_only: false,
    }
}
