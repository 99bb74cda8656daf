//! The failures that a case plans, by their words.

use case_files::number_of;
use cm_base::{CallKind, FailAt, Left, Text};

/// The kinds of calls with their words.
const CALLS: [(&[u8], CallKind); 4] = [
    (b"read", CallKind::Read),
    (b"write", CallKind::Write),
    (b"remove", CallKind::Remove),
    (b"list", CallKind::List),
];

/// The kind of call of a word.
fn call_of(word: &[u8]) -> Option<CallKind> {
    for (known, call) in CALLS {
        if known == word {
            return Some(call);
        }
    }
    None
}

/// What a failed call leaves, by its words; no words are the old bytes.
fn left_of(words: &[Text]) -> Option<Left> {
    match words {
        [] => Some(Left::Old),
        [left] if left.as_bytes() == b"old".as_slice() => Some(Left::Old),
        [left] if left.as_bytes() == b"nothing".as_slice() => Some(Left::Nothing),
        [left, count] if left.as_bytes() == b"prefix".as_slice() => {
            Some(Left::Prefix(number_of(count.as_bytes())?))
        }
        _ => None,
    }
}

/// The entry of a plan that these words name: `read|write|remove|list NTH [old|nothing|prefix COUNT]`.
pub fn entry_of(words: &[Text]) -> Option<FailAt> {
    let [call, nth, left @ ..] = words else {
        return None;
    };
    Some(FailAt {
        kind: call_of(call.as_bytes())?,
        nth: number_of(nth.as_bytes())?,
        left: left_of(left)?,
    })
}
