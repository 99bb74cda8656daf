//! A small unifier, for examples: it answers what unification is defined to answer.

ghost use Rattle.std.specs.Prelude.{◌≡◌, [], IfOk, Some, map};
ghost use Rattle.unification.specs.Types.{put};
ghost use Rattle.unification.specs.Unification.{assign, link, link_by, solve, unify_step, unify_in, unify_all, depth, MakesEqual};
ghost use Rattle.unification.specs.Plain.{type_of, types_of, variables_of, state_of, wanted_marks, Steps, Requires, Gives, GivesFor};

use crate::marking::{is_marked_by, is_rigid_by, require};
use crate::plain::{Binding, PlainType, VariableKind, copy_type, stands_in, substitute};
use cm_base::{List, NoMemory};
use std::alloc::Global;

/// Variables, what was put in for them, one after another, and which of them were marked.
#[derive(Drop)]
pub struct Unifier {
    kinds: List<VariableKind>,
    bindings: List<Binding>,
    marked: List<usize>,
}

/// Why two types were not unified: their symbols differ, a variable would stand in its own type, a type that has to
/// admit equality doesn't, or memory was short.
#[derive(Clone, Copy, Debug, PartialEq, Eq)]
pub enum UnifyFault {
    Clash,
    Circular,
    NotEquality,
    NoMemory,
}

impl From<NoMemory> for UnifyFault {
    ghost use Rattle.std.specs.Prelude.{◌≡◌};
    ghost use Rattle.unification.specs.declared.unifier.UnifyFault.TheVariants as fault;

    ghost from_gives = { λ _ e. e ≡ fault.NoMemory };

    fn from(_: NoMemory) -> UnifyFault {
        UnifyFault::NoMemory
    }
}

impl Unifier {
    /// What stands for a variable.
    pub fn standing_for(&self, alloc: Global, variable: usize) -> Result<PlainType, NoMemory>
        ensures { IfOk result (λ ty. type_of ty ≡ (state_of self.now).stands variable) }
    {
        self.whole(alloc, &PlainType::Variable(variable))
    }

    /// Whether a variable is an equality variable.
    pub fn is_marked(&self, variable: usize) -> bool
        ensures { result ≡ (state_of self.now).marks variable }
    {
        is_marked_by(&self.kinds, &self.marked, variable)
    }

    /// Whether a variable stands for itself alone.
    fn is_rigid(&self, variable: usize) -> bool
        ensures { result ≡ (state_of self.now).rigid variable }
    {
        is_rigid_by(&self.kinds, variable)
    }

    /// A type with everything put in.
    fn whole(&self, alloc: Global, ty: &PlainType) -> Result<PlainType, NoMemory>
        ensures { IfOk result (λ whole. type_of whole ≡ put (state_of self.now).stands (type_of ty.now)) }
    {
        let mut whole = copy_type(alloc, ty)?;
        for binding in self.bindings.as_slice() {
            whole = substitute(alloc, &whole, binding)?;
        }
        Ok(whole)
    }

    /// Marks what has to be marked so that a type may stand for a variable, and answers whether it may.
    fn admit(&mut self, variable: usize, to: &PlainType) -> Result<bool, NoMemory>
        ensures marks { IfOk result (λ can. Requires can
            (wanted_marks (state_of self.old) variable (type_of to.now)) (state_of self.new).marks) }
        ensures kinds { self.new.kinds ≡ self.old.kinds }
        ensures bindings { self.new.bindings ≡ self.old.bindings }
    {
        if !is_marked_by(&self.kinds, &self.marked, variable) {
            return Ok(true);
        }
        require(&self.kinds, &mut self.marked, to)
    }

    /// Puts a type in for a variable, which has to admit equality where the variable does.
    fn assign(&mut self, alloc: Global, variable: usize, to: &PlainType) -> Result<(), UnifyFault>
        ensures { Steps (Some (assign variable (type_of to.now) (state_of self.old))) result (state_of self.new) }
    {
        if !self.admit(variable, to)? {
            return Err(UnifyFault::NotEquality);
        }
        let to = copy_type(alloc, to)?;
        Ok(self.bindings.add(Binding { variable, to })?)
    }

    /// Makes two variables one, for which nothing stands.
    fn link(&mut self, alloc: Global, this: usize, that: usize) -> Result<(), UnifyFault>
        ensures { Steps (Some (link this that (state_of self.old))) result (state_of self.new) }
    {
        if this == that {
            return Ok(());
        }
        match (self.is_rigid(this), self.is_rigid(that)) {
            (true, true) => Err(UnifyFault::Clash),
            (true, false) => self.assign(alloc, that, &PlainType::Variable(this)),
            (false, true) => self.assign(alloc, this, &PlainType::Variable(that)),
            (false, false) => {
                if this < that {
                    self.assign(alloc, that, &PlainType::Variable(this))
                } else {
                    self.assign(alloc, this, &PlainType::Variable(that))
                }
            }
        }
    }

    /// Makes a variable, for which nothing stands, and a type one.
    fn solve(&mut self, alloc: Global, variable: usize, ty: &PlainType) -> Result<(), UnifyFault>
        ensures { Steps (Some (solve variable (type_of ty.now) (state_of self.old))) result (state_of self.new) }
    {
        if self.is_rigid(variable) {
            return Err(UnifyFault::Clash);
        }
        if stands_in(variable, ty) {
            return Err(UnifyFault::Circular);
        }
        self.assign(alloc, variable, ty)
    }

    /// Makes two types one, at most so deep.
    #[cycle(unify)]
    fn unify_below(
        &mut self,
        alloc: Global,
        a: &PlainType,
        b: &PlainType,
        deep: usize,
    ) -> Result<(), UnifyFault>
        ensures { Steps (unify_in deep (type_of a.now) (type_of b.now) (state_of self.old)) result (state_of self.new) }
    {
        if deep == 0 {
            return Err(UnifyFault::NoMemory);
        }
        let whole = self.whole(alloc, a)?;
        self.unify_left(alloc, &whole, b, deep - 1)
    }

    /// .. the first of which has everything put in.
    #[cycle(unify)]
    fn unify_left(
        &mut self,
        alloc: Global,
        a: &PlainType,
        b: &PlainType,
        deep: usize,
    ) -> Result<(), UnifyFault>
        ensures { Steps (unify_step (unify_in deep) (type_of a.now) (put (state_of self.old).stands (type_of b.now))
            (state_of self.old)) result (state_of self.new) }
    {
        let whole = self.whole(alloc, b)?;
        self.unify_whole(alloc, a, &whole, deep)
    }

    /// .. both of which have.
    #[cycle(unify)]
    fn unify_whole(
        &mut self,
        alloc: Global,
        a: &PlainType,
        b: &PlainType,
        deep: usize,
    ) -> Result<(), UnifyFault>
        ensures { Steps (unify_step (unify_in deep) (type_of a.now) (type_of b.now) (state_of self.old))
            result (state_of self.new) }
    {
        match (a, b) {
            (PlainType::Variable(v), PlainType::Variable(w)) => self.link(alloc, *v, *w),
            (PlainType::Variable(v), PlainType::Made(_, _)) => self.solve(alloc, *v, b),
            (PlainType::Made(_, _), PlainType::Variable(w)) => self.solve(alloc, *w, a),
            (PlainType::Made(c, ts), PlainType::Made(d, us)) => {
                if c.is_same(d) {
                    self.unify_parts(alloc, ts.as_slice(), us.as_slice(), deep)
                } else {
                    Err(UnifyFault::Clash)
                }
            }
        }
    }

    /// Makes parts one by one, from left to right.
    #[cycle(unify)]
    fn unify_parts(
        &mut self,
        alloc: Global,
        ts: &[PlainType],
        us: &[PlainType],
        deep: usize,
    ) -> Result<(), UnifyFault>
        ensures { Steps (unify_all (unify_in deep) (types_of (map type_of ts.now)) (types_of (map type_of us.now))
            (state_of self.old)) result (state_of self.new) }
    {
        let mut others = us;
        for t in ts {
            match others.split_first() {
                Some((u, rest)) => {
                    self.unify_below(alloc, t, u, deep)?;
                    others = rest;
                }
                None => return Err(UnifyFault::Clash),
            }
        }
        if others.is_empty() {
            Ok(())
        } else {
            Err(UnifyFault::Clash)
        }
    }

    #[tactic(auto, unfolding(crate::specs::Unification::depth))]
    fn deepest() -> usize
        ensures { result ≡ depth }
    {
        usize::MAX
    }
}

/// Unifies two types over variables of these kinds: the variables with what stands for them then, or the first fault.
/// The answer is most general, and a fault says that nothing makes the types equal.
#[tactic(auto, using(crate::proofs::Steps::is_general))]
pub fn unify(
    alloc: Global,
    kinds: List<VariableKind>,
    a: &PlainType,
    b: &PlainType,
) -> Result<Unifier, UnifyFault>
    ensures answer { Gives (unify_in depth (type_of a.now) (type_of b.now) (variables_of kinds)) result }
    ensures general { GivesFor (MakesEqual (type_of a.now) (type_of b.now)) (variables_of kinds) result }
{
    let mut unifier = Unifier {
        kinds,
        bindings: List::new(alloc),
        marked: List::new(alloc),
    };
    unifier.unify_below(alloc, a, b, Unifier::deepest())?;
    Ok(unifier)
}
