//! The words of a trace's entries. Each is said here once: the writer writes it, and the reader looks it up.

ghost use Rattle.std.specs.Prelude.{◌≡◌};
ghost use Rattle.rtm_trace.specs.Text.{kind_text, class_text, res_text, fate_text, end_line};
ghost use Rattle.rtm_trace.specs.inner.Words.{kinds, kind_in, classes, class_in, resources, res_in, fates, fate_in, verdict_word, plain_verdicts, plain_verdict, form_word, forms, form_in, ends, end_in};

use crate::form::Form;
use rtm_deck_items::Res;
use rtm_model::{Class, End, Fate, Kind, Verdict};

/// The name of a kind of routine.
pub(crate) fn kind_word(kind: Kind) -> &'static [u8]
    ensures { result.now ≡ kind_text kind }
{
    match kind {
        Kind::Frr => b"FRR",
        Kind::Estae => b"ESTAE",
        Kind::Estai => b"ESTAI",
        Kind::Mgr => b"MGR",
    }
}

static KINDS: [Kind; 4] = [Kind::Frr, Kind::Estae, Kind::Estai, Kind::Mgr];

fn kinds() -> &'static [Kind]
    ensures { result.now ≡ kinds }
{
    &KINDS
}

/// The kind of that name.
pub(crate) fn kind_in(word: &[u8]) -> Option<Kind>
    ensures { result ≡ kind_in word.now }
{
    kinds()
        .iter()
        .copied()
        .find(|kind| kind_word(*kind) == word)
}

/// The name of a class of aborts.
pub(crate) fn class_word(class: Class) -> &'static [u8]
    ensures { result.now ≡ class_text class }
{
    match class {
        Class::Cancel => b"CANCEL",
        Class::Detach => b"DETACH",
        Class::Mother => b"MOTHER",
        Class::Step => b"STEP",
        Class::Abterm => b"ABTERM",
        Class::Srb => b"SRB",
    }
}

static CLASSES: [Class; 6] = [
    Class::Cancel,
    Class::Detach,
    Class::Mother,
    Class::Step,
    Class::Abterm,
    Class::Srb,
];

fn classes() -> &'static [Class]
    ensures { result.now ≡ classes }
{
    &CLASSES
}

/// The class of aborts of that name.
pub(crate) fn class_in(word: &[u8]) -> Option<Class>
    ensures { result ≡ class_in word.now }
{
    classes()
        .iter()
        .copied()
        .find(|class| class_word(*class) == word)
}

/// The name of a class of holdings.
pub(crate) fn res_word(class: Res) -> &'static [u8]
    ensures { result.now ≡ res_text class }
{
    match class {
        Res::Enq => b"ENQ",
        Res::Stor => b"STOR",
        Res::Dsn => b"DSN",
        Res::Timr => b"TIMR",
    }
}

static RESOURCES: [Res; 4] = [Res::Enq, Res::Stor, Res::Dsn, Res::Timr];

fn resources() -> &'static [Res]
    ensures { result.now ≡ resources }
{
    &RESOURCES
}

/// The class of holdings of that name.
pub(crate) fn res_in(word: &[u8]) -> Option<Res>
    ensures { result ≡ res_in word.now }
{
    resources()
        .iter()
        .copied()
        .find(|class| res_word(*class) == word)
}

/// The name of a fate.
pub(crate) fn fate_word(fate: Fate) -> &'static [u8]
    ensures { result.now ≡ fate_text fate }
{
    match fate {
        Fate::Queued => b"QUEUED",
        Fate::Merged => b"MERGED",
        Fate::Late => b"LATE",
    }
}

static FATES: [Fate; 3] = [Fate::Queued, Fate::Merged, Fate::Late];

fn fates() -> &'static [Fate]
    ensures { result.now ≡ fates }
{
    &FATES
}

/// The fate of that name.
pub(crate) fn fate_in(word: &[u8]) -> Option<Fate>
    ensures { result ≡ fate_in word.now }
{
    fates()
        .iter()
        .copied()
        .find(|fate| fate_word(*fate) == word)
}

/// The word with which a verdict begins.
pub(crate) fn verdict_word(verdict: Verdict) -> &'static [u8]
    ensures { result.now ≡ verdict_word verdict }
{
    match verdict {
        Verdict::Retry(_) => b"RETRY",
        Verdict::Perc => b"PERC",
        Verdict::Stop => b"STOP",
        Verdict::Bad => b"BAD",
        Verdict::Fail => b"FAIL",
        Verdict::Over => b"OVER",
    }
}

static PLAIN_VERDICTS: [Verdict; 5] = [
    Verdict::Perc,
    Verdict::Stop,
    Verdict::Bad,
    Verdict::Fail,
    Verdict::Over,
];

fn plain_verdicts() -> &'static [Verdict]
    ensures { result.now ≡ plain_verdicts }
{
    &PLAIN_VERDICTS
}

/// The verdict that is that word alone.
pub(crate) fn plain_verdict(word: &[u8]) -> Option<Verdict>
    ensures { result ≡ plain_verdict word.now }
{
    plain_verdicts()
        .iter()
        .copied()
        .find(|verdict| verdict_word(*verdict) == word)
}

// The word with which the entries of a form begin.
fn form_word(form: Form) -> &'static [u8]
    ensures { result.now ≡ form_word form }
{
    match form {
        Form::Exec => b"EXEC",
        Form::Error => b"ERROR",
        Form::Land => b"LAND",
        Form::Enter => b"ENTER",
        Form::Leave => b"LEAVE",
        Form::Arrive => b"ARRIVE",
        Form::Begin => b"BEGIN",
        Form::Release => b"RELEASE",
        Form::Done => b"DONE",
        Form::Purge => b"PURGE",
        Form::MemEnd => b"MEMEND",
    }
}

static FORMS: [Form; 11] = [
    Form::Exec,
    Form::Error,
    Form::Land,
    Form::Enter,
    Form::Leave,
    Form::Arrive,
    Form::Begin,
    Form::Release,
    Form::Done,
    Form::Purge,
    Form::MemEnd,
];

fn forms() -> &'static [Form]
    ensures { result.now ≡ forms }
{
    &FORMS
}

/// The form of the entries that begin with that word.
pub(crate) fn form_in(word: &[u8]) -> Option<Form>
    ensures { result ≡ form_in word.now }
{
    forms()
        .iter()
        .copied()
        .find(|form| form_word(*form) == word)
}

/// The line of an end.
pub(crate) fn end_line(end: End) -> &'static [u8]
    ensures { result.now ≡ end_line end }
{
    match end {
        End::Ended => b"END ENDED\n",
        End::Stalled => b"END STALLED\n",
        End::Limit => b"END LIMIT\n",
    }
}

static ENDS: [End; 3] = [End::Ended, End::Stalled, End::Limit];

fn ends() -> &'static [End]
    ensures { result.now ≡ ends }
{
    &ENDS
}

/// The end whose line it is.
pub(crate) fn end_in(line: &[u8]) -> Option<End>
    ensures { result ≡ end_in line.now }
{
    ends().iter().copied().find(|end| end_line(*end) == line)
}
