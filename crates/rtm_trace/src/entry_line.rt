//! Reading the line of an entry, loosely: the reader writes what it has read again and compares.

ghost use Rattle.std.specs.Prelude.{◌≡◌};
ghost use Rattle.rtm_trace.specs.inner.Words.{word_of};
ghost use Rattle.rtm_trace.specs.inner.Reading.{unit_in, place_in, index_in, flag_in, behind_flag, reason_in, mark_of_flags, mark_behind_code, mark_in, fate_behind, behind_fate, verdict_in, behind_verdict, exec_in, error_in, land_in, enter_in, leave_in, arrive_in, begin_in, release_in, done_in, purge_in, what_as, what_in, entry_in, line_in};

use crate::form::Form;
use crate::names::Names;
use crate::table::{class_in, fate_in, form_in, kind_in, plain_verdict, res_in};
use crate::word::{BEYOND_U32, cut_at, cut_word, number_in};
use rtm_codes::{Code, read_code};
use rtm_model::{Entry, Fate, Mark, Place, Verdict, What};

/// The unit of that name; an asterisk is the master, whose number is that count.
pub(crate) fn unit_in(names: &Names, count: u16, word: &[u8]) -> Option<u16>
    ensures { result ≡ unit_in names.now count word.now }
{
    if word == b"*".as_slice() {
        Some(count)
    } else {
        names.unit(word)
    }
}

fn place_in(names: &Names, word: &[u8]) -> Option<Place>
    ensures { result ≡ place_in names.now word.now }
{
    let (name, digits) = cut_at(word, b'.');
    let prog = names.program(name)?;
    let op = number_in(digits, 10, 65536)?;
    Some(Place {
        prog,
        op: op as u16,
    })
}

// An index of 32 bits.
fn index_in(word: &[u8]) -> Option<u32>
    ensures { result ≡ index_in word.now }
{
    let index = number_in(word, 10, BEYOND_U32)?;
    Some(index as u32)
}

// Whether the flag stands first, and what stands behind it if it does.
fn cut_flag<'a>(line: &'a [u8], text: &[u8]) -> (bool, &'a [u8])
    ensures flag { result.0 ≡ flag_in text.now line.now }
    ensures rest { result.1.now ≡ behind_flag text.now line.now }
{
    let (word, rest) = cut_word(line);
    if word == text {
        (true, rest)
    } else {
        (false, line)
    }
}

// The reason that a word tells.
fn reason_in(word: &[u8]) -> Option<u32>
    ensures { result ≡ reason_in word.now }
{
    let (key, digits) = cut_at(word, b'=');
    if key != b"REASON".as_slice() {
        return None;
    }
    let reason = number_in(digits, 16, BEYOND_U32)?;
    Some(reason as u32)
}

// A mark, and whether the word that tells of no SDWA stands behind it.
fn mark_of_flags(code: Code, reason: Option<u32>, line: &[u8]) -> (Mark, bool)
    ensures { result ≡ mark_of_flags code reason line.now }
{
    let (clup, rest) = cut_flag(line, b"CLUP");
    let (perc, rest) = cut_flag(rest, b"PERC");
    let (staf, rest) = cut_flag(rest, b"STAF");
    let (bare, _) = cut_flag(rest, b"NOSDWA");
    let mark = Mark {
        code,
        reason,
        clup,
        perc,
        staf,
    };
    (mark, bare)
}

fn mark_behind_code(code: Code, line: &[u8]) -> (Mark, bool)
    ensures { result ≡ mark_behind_code code line.now }
{
    let (word, rest) = cut_word(line);
    match reason_in(word) {
        None => mark_of_flags(code, None, line),
        Some(reason) => mark_of_flags(code, Some(reason), rest),
    }
}

fn mark_in(line: &[u8]) -> Option<(Mark, bool)>
    ensures { result ≡ mark_in line.now }
{
    let (word, rest) = cut_word(line);
    let code = read_code(word)?;
    Some(mark_behind_code(code, rest))
}

// The fate that a word tells behind the key.
fn fate_behind(key: &[u8], word: &[u8]) -> Option<Fate>
    ensures { result ≡ fate_behind key.now word.now }
{
    let (own, fate) = cut_at(word, b'=');
    if own == key { fate_in(fate) } else { None }
}

// The same where the word stands first, and what stands behind it if it does.
fn cut_posted<'a>(key: &[u8], line: &'a [u8]) -> (Option<Fate>, &'a [u8])
    ensures fate { result.0 ≡ fate_behind key.now (word_of line.now) }
    ensures rest { result.1.now ≡ behind_fate key.now line.now }
{
    let (word, rest) = cut_word(line);
    let fate = fate_behind(key, word);
    if fate.is_some() {
        (fate, rest)
    } else {
        (fate, line)
    }
}

// The verdict that stands first.
fn verdict_in(names: &Names, line: &[u8]) -> Option<Verdict>
    ensures { result ≡ verdict_in names.now line.now }
{
    let (word, rest) = cut_word(line);
    if word != b"RETRY".as_slice() {
        return plain_verdict(word);
    }
    let (place, _) = cut_word(rest);
    let place = place_in(names, place)?;
    Some(Verdict::Retry(place))
}

// What stands behind it.
fn behind_verdict(line: &[u8]) -> &[u8]
    ensures { result.now ≡ behind_verdict line.now }
{
    let (word, rest) = cut_word(line);
    if word != b"RETRY".as_slice() {
        return rest;
    }
    let (_, rest) = cut_word(rest);
    rest
}

fn exec_in(names: &Names, line: &[u8]) -> Option<What>
    ensures { result ≡ exec_in names.now line.now }
{
    let (word, rest) = cut_word(line);
    let at = place_in(names, word)?;
    let (word, _) = cut_word(rest);
    let (_, digits) = cut_at(word, b'=');
    let rc = number_in(digits, 10, 256)?;
    Some(What::Exec { at, rc: rc as u8 })
}

fn error_in(names: &Names, line: &[u8]) -> Option<What>
    ensures { result ≡ error_in names.now line.now }
{
    let (word, rest) = cut_word(line);
    let at = place_in(names, word)?;
    let (mark, _) = mark_in(rest)?;
    Some(What::Error { at, mark })
}

fn land_in(line: &[u8]) -> Option<What>
    ensures { result ≡ land_in line.now }
{
    let (word, rest) = cut_word(line);
    let class = class_in(word)?;
    let (word, rest) = cut_word(rest);
    let from = index_in(word)?;
    let (mark, _) = mark_in(rest)?;
    Some(What::Land { class, from, mark })
}

fn enter_in(line: &[u8]) -> Option<What>
    ensures { result ≡ enter_in line.now }
{
    let (word, rest) = cut_word(line);
    let kind = kind_in(word)?;
    let (word, rest) = cut_word(rest);
    let reg = index_in(word)?;
    let (mark, bare) = mark_in(rest)?;
    Some(What::Enter {
        kind,
        reg,
        mark,
        bare,
    })
}

fn leave_in(names: &Names, line: &[u8]) -> Option<What>
    ensures { result ≡ leave_in names.now line.now }
{
    let (word, rest) = cut_word(line);
    let kind = kind_in(word)?;
    let (word, rest) = cut_word(rest);
    let reg = index_in(word)?;
    let verdict = verdict_in(names, rest)?;
    let (logrec, rest) = cut_flag(behind_verdict(rest), b"LOGREC");
    let (dump, _) = cut_flag(rest, b"DUMP");
    Some(What::Leave {
        kind,
        reg,
        verdict,
        logrec,
        dump,
    })
}

fn arrive_in(line: &[u8]) -> Option<What>
    ensures { result ≡ arrive_in line.now }
{
    let (word, rest) = cut_word(line);
    let cmd = number_in(word, 10, 256)?;
    let (word, _) = cut_word(rest);
    let fate = fate_in(word)?;
    Some(What::Arrive {
        cmd: cmd as u8,
        fate,
    })
}

fn begin_in(line: &[u8]) -> Option<What>
    ensures { result ≡ begin_in line.now }
{
    let (word, rest) = cut_word(line);
    let code = read_code(word)?;
    let (dump, _) = cut_flag(rest, b"DUMP");
    Some(What::Begin { code, dump })
}

fn release_in(names: &Names, count: u16, line: &[u8]) -> Option<What>
    ensures { result ≡ release_in names.now count line.now }
{
    let (word, rest) = cut_word(line);
    let class = res_in(word)?;
    let (word, rest) = cut_word(rest);
    let id = index_in(word)?;
    let (word, _) = cut_word(rest);
    let owner = unit_in(names, count, word)?;
    Some(What::Release { class, id, owner })
}

fn done_in(line: &[u8]) -> Option<What>
    ensures { result ≡ done_in line.now }
{
    let (word, rest) = cut_word(line);
    let code = read_code(word)?;
    let (to_task, rest) = cut_posted(b"TASK", rest);
    let (to_step, _) = cut_posted(b"STEP", rest);
    Some(What::Done {
        code,
        to_task,
        to_step,
    })
}

fn purge_in(names: &Names, count: u16, line: &[u8]) -> Option<What>
    ensures { result ≡ purge_in names.now count line.now }
{
    let (word, _) = cut_word(line);
    let unit = unit_in(names, count, word)?;
    Some(What::Purge { unit })
}

fn what_as(names: &Names, count: u16, form: Form, line: &[u8]) -> Option<What>
    ensures { result ≡ what_as names.now count form line.now }
{
    match form {
        Form::Exec => exec_in(names, line),
        Form::Error => error_in(names, line),
        Form::Land => land_in(line),
        Form::Enter => enter_in(line),
        Form::Leave => leave_in(names, line),
        Form::Arrive => arrive_in(line),
        Form::Begin => begin_in(line),
        Form::Release => release_in(names, count, line),
        Form::Done => done_in(line),
        Form::Purge => purge_in(names, count, line),
        Form::MemEnd => Some(What::MemEnd),
    }
}

/// What may stand behind the unit of a line.
pub(crate) fn what_in(names: &Names, count: u16, line: &[u8]) -> Option<What>
    ensures { result ≡ what_in names.now count line.now }
{
    let (word, rest) = cut_word(line);
    let form = form_in(word)?;
    what_as(names, count, form, rest)
}

// The entry behind the index.
fn entry_in(names: &Names, count: u16, line: &[u8]) -> Option<Entry>
    ensures { result ≡ entry_in names.now count line.now }
{
    let (word, rest) = cut_word(line);
    let unit = unit_in(names, count, word)?;
    let what = what_in(names, count, rest)?;
    Some(Entry { unit, what })
}

/// The entry whose line this may be, by the names of a deck and the number of its units.
pub(crate) fn line_in(names: &Names, count: u16, line: &[u8]) -> Option<Entry>
    ensures { result ≡ line_in names.now count line.now }
{
    let (_, rest) = cut_word(line);
    entry_in(names, count, rest)
}
