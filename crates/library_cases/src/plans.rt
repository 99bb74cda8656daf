//! Plans of failing calls, as steps have them: `write 2 prefix-3 remove 1 old`.

use case_files::number_of;
use cm_base::{CallKind, FailAt, Left, List, NoMemory, Text};
use std::alloc::Global;

/// The calls by their words.
const CALLS: [(&[u8], CallKind); 4] = [
    (b"read", CallKind::Read),
    (b"write", CallKind::Write),
    (b"remove", CallKind::Remove),
    (b"list", CallKind::List),
];

/// The call of a word.
fn call_of(word: &[u8]) -> Option<CallKind> {
    for (known, call) in CALLS {
        if known == word {
            return Some(call);
        }
    }
    None
}

/// What a failed call leaves, by its word: the old bytes, nothing, or so many of the new bytes.
fn left_of(word: &[u8]) -> Option<Left> {
    match word {
        b"old" => Some(Left::Old),
        b"nothing" => Some(Left::Nothing),
        _ => Some(Left::Prefix(number_of(word.strip_prefix(b"prefix-")?)?)),
    }
}

/// The entry of three words.
fn entry_of(words: &[Text]) -> Option<FailAt> {
    let [call, nth, left] = words else {
        return None;
    };
    Some(FailAt {
        kind: call_of(call.as_bytes())?,
        nth: number_of(nth.as_bytes())?,
        left: left_of(left.as_bytes())?,
    })
}

/// The plan of words, three an entry. None where they mean nothing.
pub fn plan_of(alloc: Global, words: &[Text]) -> Result<Option<List<FailAt>>, NoMemory> {
    let mut plan = List::new(alloc);
    for words in words.chunks(3) {
        let Some(entry) = entry_of(words) else {
            return Ok(None);
        };
        plan.add(entry)?;
    }
    Ok(Some(plan))
}
