//! Some types, and what stands against their equality.

ghost use Rattle.std.specs.Prelude.{◌≡◌, ◌<◌, length, All, IsTrue};
ghost use Rattle.equality_types.specs.Choices.{AllAreTypes};

use crate::scene::{number_line, ok_line};
use case_files::{Part, number_of, push_parts};
use case_texts::Scene;
use cm_base::{List, NoMemory, Text};
use equality_types::greatest_choice;
use std::alloc::Global;

/// Types by number: which of them are barred, and the holders of each.
#[derive(Drop)]
pub struct EqualityScene {
    alloc: Global,
    barred: Vec<bool>,
    holders: Vec<List<usize>>,
}

/// Whether numbers are below another one.
fn are_below(list: &[usize], count: usize) -> bool
    ensures { IsTrue result → All (λ at. at < count) list.now }
{
    for at in list {
        if *at >= count {
            return false;
        }
    }
    true
}

/// Whether all holders are types.
fn are_types(holders: &[List<usize>]) -> bool
    ensures { IsTrue result → AllAreTypes holders.now }
{
    for list in holders {
        if !are_below(list.as_slice(), holders.len()) {
            return false;
        }
    }
    true
}

/// The place that a word numbers.
fn place_of(word: &Text) -> Option<usize> {
    Some(number_of(word.as_bytes())? as usize)
}

/// Lists as they are, in lists that contracts speak of.
fn copied(alloc: Global, lists: &[List<usize>]) -> Result<List<List<usize>>, NoMemory> {
    let mut copies = List::new(alloc);
    for list in lists {
        copies.add(list.clone()?)?;
    }
    Ok(copies)
}

impl EqualityScene {
    /// No types.
    pub fn new(alloc: Global) -> EqualityScene {
        EqualityScene {
            alloc,
            barred: Vec::new(alloc),
            holders: Vec::new(alloc),
        }
    }

    /// So many types of which none is barred and none holds another.
    fn begin(&mut self, count: usize) -> Result<(), NoMemory> {
        self.barred.clear();
        self.holders.clear();
        for _ in 0..count {
            self.barred.push(false)?;
            self.holders.push(List::new(self.alloc))?;
        }
        Ok(())
    }

    /// Bars a type.
    fn bar(&mut self, at: usize) -> Option<()> {
        *self.barred.get_mut(at)? = true;
        Some(())
    }

    /// Says that a type holds another one.
    fn hold(&mut self, holder: usize, part: usize) -> Result<Option<()>, NoMemory> {
        match self.holders.get_mut(part) {
            Some(list) => {
                list.add(holder)?;
                Ok(Some(()))
            }
            None => Ok(None),
        }
    }

    /// So many types, each of which holds the next one, and the last is barred.
    fn chain(&mut self, count: usize) -> Result<Option<()>, NoMemory> {
        self.begin(count)?;
        for part in 1..count {
            self.hold(part - 1, part)?;
        }
        match count.checked_sub(1) {
            Some(last) => Ok(self.bar(last)),
            None => Ok(None),
        }
    }

    /// Which of the types admit equality.
    fn choice(&self) -> Result<Option<List<bool>>, NoMemory> {
        let barred = List::from_vec(self.barred.clone()?);
        let holders = copied(self.alloc, self.holders.as_slice())?;
        if barred.len() == holders.len() && are_types(holders.as_slice()) {
            Ok(Some(greatest_choice(self.alloc, &barred, &holders)?))
        } else {
            Ok(None)
        }
    }

    /// The numbers of the types that admit equality.
    fn choice_line(&self) -> Result<Option<Vec<u8>>, NoMemory> {
        let Some(choice) = self.choice()? else {
            return Ok(None);
        };
        let mut out = Vec::new(self.alloc);
        push_parts(self.alloc, &mut out, &[Part::Text(b"types")])?;
        for (at, admits) in choice.as_slice().iter().enumerate() {
            if *admits {
                push_parts(
                    self.alloc,
                    &mut out,
                    &[Part::Text(b" "), Part::Number(at as u64)],
                )?;
            }
        }
        push_parts(self.alloc, &mut out, &[Part::Text(b"\n")])?;
        Ok(Some(out))
    }

    /// How many types admit equality.
    fn count_line(&self) -> Result<Option<Vec<u8>>, NoMemory> {
        match self.choice()? {
            Some(choice) => {
                let count = choice.as_slice().iter().filter(|admits| **admits).count();
                number_line(self.alloc, count as u64)
            }
            None => Ok(None),
        }
    }

    /// Says something of one type.
    fn of_one(&mut self, step: &[u8], word: &Text) -> Result<Option<()>, NoMemory> {
        let Some(number) = place_of(word) else {
            return Ok(None);
        };
        match step {
            b"types" => {
                self.begin(number)?;
                Ok(Some(()))
            }
            b"chain" => self.chain(number),
            b"bar" => Ok(self.bar(number)),
            _ => Ok(None),
        }
    }

    /// Says something of two types.
    fn of_two(&mut self, step: &[u8], one: &Text, other: &Text) -> Result<Option<()>, NoMemory> {
        match (step, place_of(one), place_of(other)) {
            (b"holds", Some(holder), Some(part)) => self.hold(holder, part),
            _ => Ok(None),
        }
    }
}

impl Scene for EqualityScene {
    fn answer(
        &mut self,
        _alloc: Global,
        step: &[u8],
        words: &[Text],
    ) -> Result<Option<Vec<u8>>, NoMemory> {
        let done = match (step, words) {
            (b"choice", []) => return self.choice_line(),
            (b"count", []) => return self.count_line(),
            (_, [word]) => self.of_one(step, word)?,
            (_, [one, other]) => self.of_two(step, one, other)?,
            _ => None,
        };
        match done {
            Some(()) => ok_line(self.alloc),
            None => Ok(None),
        }
    }
}
