//! The table of types.

ghost use Rattle.std.specs.Prelude.{◌≡◌, ◌↔◌, ◌∷◌, ◌++◌, [], length, true, false, IsTrue, IfOk, OnOk, OnErr};
ghost use Rattle.semantic_objects.specs.declared.symbol.Symbol.TheVariants as symbol;
ghost use Rattle.semantic_objects.specs.Symbols.{AreDiffering};
ghost use Rattle.unification.specs.Types.{Ty, size};
ghost use Rattle.unification.specs.Unification.{unify_in, depth};
ghost use Rattle.unification.specs.Instances.{with_variable, instance};
ghost use Rattle.unification.specs.Generality.{IsOf};
ghost use Rattle.unification.specs.Fitting.{IsSchemeOf};
ghost use Rattle.type_nodes.specs.Nodes.{IsNode};
ghost use Rattle.type_nodes.specs.Tables.{Has, store_of, state, whole, type_of, types_of, with_variable_of, IsFrontOf};
ghost use Rattle.type_nodes.specs.Facts.{capped};
ghost use Rattle.type_schemes.specs.Instances.{Extends, births_of};
ghost use Rattle.type_schemes.specs.Schemes.{HaveAll, closed_scheme, schemes_since, is_left, MayBeFirstOf, AreSchemesOf};
ghost use Rattle.table_schemes.specs.Meaning.{IsTableScheme};
ghost use Rattle.sml_types.specs.Covering.{CoversIn};
ghost use Rattle.sml_types.specs.Looking.{IsLook, IsRecordType};
ghost use Rattle.sml_types.specs.Unifying.{Grown, Sought, NamesOwn, IsMostGeneralFor};

use crate::covers::covers;
use crate::fault::TypeFault;
use crate::look::{Look, copied, fields_of, look_at};
use crate::record::in_order;
use crate::size::tree_size;
use crate::unify::unify_below;
use crate::weigh::weigh;
use cm_base::{List, NoMemory, Text};
use semantic_objects::{Scheme, Symbol, TyId, TyName};
use std::alloc::Global;
use std::marker::Model;
use table_schemes::{TableScheme, enter, instance};
use type_nodes::{Birth, Mark, Node, TypeBindings};
use type_schemes::{generalise, generalise_since, instantiate, left_since};

/// Types with variables, and what stands for these.
#[derive(Drop)]
pub struct TypeTable {
    pub(crate) bindings: TypeBindings,
    pub(crate) alloc: Global,
}

impl Model for TypeTable {
    ghost use Rattle.type_nodes.specs.Tables.{Table};

    ghost Value = { Table };

    ghost view = { λ t. t.bindings };
}

impl TypeTable {
    /// A table without types.
    pub fn new(alloc: Global) -> Result<TypeTable, NoMemory>
        ensures { IfOk result (λ table. table ≡ record { births = []; nodes = []; trail = [] }) }
    {
        Ok(TypeTable {
            bindings: TypeBindings::new(alloc),
            alloc,
        })
    }

    /// Whether an id is one of the table.
    pub fn has(&self, id: TyId) -> bool
        ensures { IsTrue result ↔ Has self.now id }
    {
        match id {
            TyId::Variable(at) => at < self.bindings.variables(),
            TyId::Made(at) => at < self.bindings.nodes(),
        }
    }

    /// A new variable, for which anything may come to stand; an equality variable or not.
    pub fn fresh(&mut self, eq: bool) -> Result<TyId, NoMemory>
        ensures id { IfOk result (λ id. id ≡ TyId.Variable (length self.old.births)) }
        ensures made { IfOk result (λ id. self.new ≡ with_variable_of (record { marked = eq; rigid = false }) self.old) }
        ensures state { IfOk result (λ id. state self.new ≡ with_variable false eq (state self.old)) }
        ensures extends { IfOk result (λ id. Extends self.old self.new) }
        ensures refused { OnErr result (self.new ≡ self.old) }
    {
        self.variable(Birth {
            marked: eq,
            rigid: false,
        })
    }

    /// A new variable that stands for itself alone, as a written type variable does; an equality variable or not.
    pub fn rigid(&mut self, eq: bool) -> Result<TyId, NoMemory>
        ensures id { IfOk result (λ id. id ≡ TyId.Variable (length self.old.births)) }
        ensures made { IfOk result (λ id. self.new ≡ with_variable_of (record { marked = eq; rigid = true }) self.old) }
        ensures state { IfOk result (λ id. state self.new ≡ with_variable true eq (state self.old)) }
        ensures extends { IfOk result (λ id. Extends self.old self.new) }
        ensures refused { OnErr result (self.new ≡ self.old) }
    {
        self.variable(Birth {
            marked: eq,
            rigid: true,
        })
    }

    /// A new variable.
    fn variable(&mut self, birth: Birth) -> Result<TyId, NoMemory>
        ensures id { IfOk result (λ id. id ≡ TyId.Variable (length self.old.births)) }
        ensures made { IfOk result (λ id. self.new ≡ with_variable_of birth self.old) }
        ensures state { IfOk result (λ id. state self.new ≡ with_variable birth.rigid birth.marked (state self.old)) }
        ensures extends { IfOk result (λ id. Extends self.old self.new) }
        ensures refused { OnErr result (self.new ≡ self.old) }
    {
        Ok(self.bindings.add_variable(birth)?)
    }

    /// A new type: a symbol over types.
    fn add(&mut self, symbol: Symbol, parts: List<TyId>) -> Result<TyId, NoMemory>
        requires { IsNode (store_of self.old) (record { symbol = symbol; parts = parts }) }
        ensures made { IfOk result (λ id. type_of self.new id ≡ Ty.Made symbol (types_of self.old parts)) }
        ensures has { IfOk result (Has self.new) }
        ensures state { IfOk result (λ id. state self.new ≡ state self.old) }
        ensures extends { IfOk result (λ id. Extends self.old self.new) }
        ensures refused { OnErr result (self.new ≡ self.old) }
    {
        self.bindings.is_kept();
        Ok(self.bindings.add_node(Node { symbol, parts })?)
    }

    /// A function type.
    pub fn arrow(&mut self, from: TyId, to: TyId) -> Result<TyId, NoMemory>
        requires from { Has self.old from }
        requires to { Has self.old to }
        ensures made { IfOk result (λ id. type_of self.new id ≡ Ty.Made symbol.Arrow (types_of self.old (from ∷ to ∷ []))) }
        ensures has { IfOk result (Has self.new) }
        ensures state { IfOk result (λ id. state self.new ≡ state self.old) }
        ensures extends { IfOk result (λ id. Extends self.old self.new) }
        ensures refused { OnErr result (self.new ≡ self.old) }
    {
        let mut parts = List::new(self.alloc);
        parts.add(from)?;
        parts.add(to)?;
        self.add(Symbol::Arrow, parts)
    }

    /// A type name with its arguments.
    pub fn con(&mut self, name: &TyName, args: &List<TyId>) -> Result<TyId, NoMemory>
        requires args { HaveAll self.old args.now }
        requires counted { length args.now ≡ name.now.arity }
        ensures made { IfOk result (λ id. type_of self.new id ≡ Ty.Made (symbol.Name name.now) (types_of self.old args.now)) }
        ensures has { IfOk result (Has self.new) }
        ensures state { IfOk result (λ id. state self.new ≡ state self.old) }
        ensures extends { IfOk result (λ id. Extends self.old self.new) }
        ensures refused { OnErr result (self.new ≡ self.old) }
    {
        let name = name.copy()?;
        let args = copied(self.alloc, args)?;
        self.add(Symbol::Name(name), args)
    }

    /// A record type of as many parts as differing labels, with its fields in the byte order of the labels.
    pub fn record_type(&mut self, labels: &List<Text>, parts: &List<TyId>) -> Result<TyId, NoMemory>
        requires parts { HaveAll self.old parts.now }
        requires counted { length parts.now ≡ length labels.now }
        requires differing { AreDiffering labels.now }
        ensures made { IfOk result (λ id. IsRecordType self.old labels.now parts.now (type_of self.new id)) }
        ensures has { IfOk result (Has self.new) }
        ensures state { IfOk result (λ id. state self.new ≡ state self.old) }
        ensures extends { IfOk result (λ id. Extends self.old self.new) }
        ensures refused { OnErr result (self.new ≡ self.old) }
    {
        let fields = in_order(self.alloc, fields_of(self.alloc, labels, parts)?)?;
        Ok(self.add(Symbol::Record(fields.labels), fields.parts)?)
    }

    /// What stands at an id, with what was put in for variables.
    pub fn look(&self, id: TyId) -> Result<Look, NoMemory>
        requires { Has self.now id }
        ensures { IfOk result (IsLook self.now id) }
    {
        look_at(&self.bindings, self.alloc, id)
    }

    /// How many nodes the tree has that an id stands for, variables and names without arguments included; 65,537 where
    /// there are more than 65,536.
    pub fn tree_size(&self, id: TyId) -> Result<u32, NoMemory>
        requires { Has self.now id }
        ensures { IfOk result (λ count. count ≡ capped (size (whole self.now id))) }
    {
        tree_size(&self.bindings, self.alloc, id)
    }

    /// The same. Where a walk was needed its answer is kept, so that the next look at this type or at one over it needs none
    /// until something is put in for a variable of it.
    pub fn sized(&mut self, id: TyId) -> Result<u32, NoMemory>
        requires { Has self.old id }
        ensures size { IfOk result (λ count. count ≡ capped (size (whole self.old id))) }
        ensures same { self.new ≡ self.old }
    {
        Ok(weigh(&mut self.bindings, self.alloc, id)?)
    }

    /// Makes what two ids stand for one, or leaves the table as it is.
    pub fn unify(&mut self, a: TyId, b: TyId) -> Result<(), TypeFault>
        requires first { Has self.old a }
        requires second { Has self.old b }
        ensures answer { Sought (unify_in depth (whole self.old a) (whole self.old b) (state self.old)) result (state self.new) }
        ensures general { IsMostGeneralFor (whole self.old a) (whole self.old b) (state self.old) result (state self.new) }
        ensures named { NamesOwn self.old result }
        ensures refused { OnErr result (self.new ≡ self.old) }
        ensures grown { Grown self.old self.new }
    {
        self.bindings.is_kept();
        let before = self.bindings.entries();
        match unify_below(&mut self.bindings, self.alloc, a, b, deepest()) {
            Ok(()) => Ok(()),
            Err(fault) => {
                self.bindings.undo_to(before);
                Err(fault)
            }
        }
    }

    /// The scheme of what an id stands for, closed over its variables but for those that stand in what an id of `kept`
    /// stands for: they are numbered by first occurrence, each with the mark that it has now, and all others stay free.
    /// Rigid variables are closed as others are.
    pub fn generalise(&mut self, ty: TyId, kept: &List<TyId>) -> Result<Scheme, NoMemory>
        requires has { Has self.old ty }
        requires kept { HaveAll self.old kept.now }
        ensures scheme { IfOk result (λ scheme. scheme ≡ closed_scheme self.old kept.now ty) }
        ensures of { IfOk result (IsSchemeOf (state self.old)) }
        ensures same { self.new ≡ self.old }
    {
        self.bindings.is_kept();
        Ok(generalise(&self.bindings, self.alloc, ty, kept)?)
    }

    /// The schemes of what some ids stand for, as a declaration closes them that began at a mark: over the variables that
    /// were made since and stand in nothing that stands for an older one. In each they are numbered by first occurrence,
    /// with the marks that they have now, and all others stay free. Rigid variables are closed as others are. No older
    /// mark was undone since. It takes as long as what was made since the mark and the types are large.
    /// The Definition of Standard ML (Revised), section 4.8.
    pub fn generalise_since(
        &mut self,
        tys: &List<TyId>,
        since: &Mark,
    ) -> Result<List<Scheme>, NoMemory>
        requires has { HaveAll self.old tys.now }
        requires front { IsFrontOf since.now self.old }
        ensures schemes { IfOk result (λ schemes. schemes ≡ schemes_since self.old (state since.now).next tys.now) }
        ensures of { IfOk result (AreSchemesOf (state self.old)) }
        ensures same { self.new ≡ self.old }
    {
        self.bindings.is_kept();
        Ok(generalise_since(&self.bindings, self.alloc, tys, since)?)
    }

    /// The place of the first of some variables that such a declaration may not close: it is older, or stands in what
    /// stands for an older one, or in what an id of `unclosed` stands for, whose type isn't closed.
    pub fn left_since(
        &mut self,
        own: &List<TyId>,
        unclosed: &List<TyId>,
        since: &Mark,
    ) -> Result<Option<usize>, NoMemory>
        requires unclosed { HaveAll self.old unclosed.now }
        requires front { IsFrontOf since.now self.old }
        ensures left { IfOk result (MayBeFirstOf (is_left self.old (state since.now).next unclosed.now) own.now) }
        ensures same { self.new ≡ self.old }
    {
        Ok(left_since(&self.bindings, self.alloc, own, unclosed, since)?)
    }

    /// An instance of a scheme: one new variable for each mark, in the order of the marks and with the mark, and the
    /// scheme's type with these in place of its own variables. A scheme in which a variable is free that the table
    /// doesn't have is refused as want of memory is.
    pub fn instantiate(&mut self, scheme: &Scheme) -> Result<TyId, NoMemory>
        ensures made { IfOk result (λ id. type_of self.new id ≡ (instance scheme.now (state self.old)).0) }
        ensures has { IfOk result (Has self.new) }
        ensures births { IfOk result (λ id. self.new.births ≡ self.old.births ++ births_of scheme.now.marks) }
        ensures state { IfOk result (λ id. state self.new ≡ (instance scheme.now (state self.old)).1) }
        ensures extends { IfOk result (λ id. Extends self.old self.new) }
        ensures refused { OnErr result (self.new ≡ self.old) }
    {
        instantiate(&mut self.bindings, self.alloc, scheme)
    }

    /// The type of a scheme as the table has it, so that an instance copies only what a variable of the scheme stands in.
    /// It takes as many steps as the scheme has nodes, and makes no variable. A scheme in which a variable is free that
    /// the table doesn't have is refused as want of memory is.
    pub fn enter(&mut self, scheme: &Scheme) -> Result<TableScheme, NoMemory>
        ensures entered { IfOk result (IsTableScheme self.new scheme.now) }
        ensures births { self.new.births ≡ self.old.births }
        ensures state { OnOk result (state self.new ≡ state self.old) }
        ensures extends { OnOk result (Extends self.old self.new) }
        ensures refused { OnErr result (self.new ≡ self.old) }
    {
        enter(&mut self.bindings, self.alloc, scheme)
    }

    /// An instance of a scheme that the table has, as `instantiate` makes one. It is refused for want of memory alone,
    /// and the table is as before then.
    pub fn instance(&mut self, scheme: &Scheme, entered: &TableScheme) -> Result<TyId, NoMemory>
        requires { IsTableScheme self.old scheme.now entered.now }
        ensures made { IfOk result (λ id. type_of self.new id ≡ (instance scheme.now (state self.old)).0) }
        ensures has { IfOk result (Has self.new) }
        ensures births { IfOk result (λ id. self.new.births ≡ self.old.births ++ births_of scheme.now.marks) }
        ensures state { IfOk result (λ id. state self.new ≡ (instance scheme.now (state self.old)).1) }
        ensures extends { IfOk result (λ id. Extends self.old self.new) }
        ensures refused { OnErr result (self.new ≡ self.old) }
    {
        instance(&mut self.bindings, self.alloc, scheme, entered)
    }

    /// Whether every instance of the second scheme is one of the first, where variables that are free in them stand for
    /// themselves alone. Both are schemes of this table.
    pub fn covers(&mut self, general: &Scheme, special: &Scheme) -> Result<bool, NoMemory>
        requires general { IsOf (state self.old) general.now.body }
        requires special { IsOf (state self.old) special.now.body }
        ensures covers { IfOk result (λ covers. IsTrue covers ↔ CoversIn self.old general.now special.now) }
        ensures same { self.new ≡ self.old }
    {
        covers(&mut self.bindings, self.alloc, general, special)
    }

    /// Remembers the table as it stands.
    pub fn mark(&self) -> Mark
        ensures { result ≡ self.now }
    {
        self.bindings.mark()
    }

    /// Makes the table again what a mark remembers. The mark is one of this table, and no older mark was undone since.
    pub fn undo(&mut self, to: &Mark)
        requires { IsFrontOf to.now self.old }
        ensures { self.new ≡ to.now }
    {
        self.bindings.undo(to)
    }
}

/// How deep unification goes.
#[tactic(auto, unfolding(unification::specs::Unification::depth))]
pub(crate) fn deepest() -> usize
    ensures { result ≡ depth }
{
    usize::MAX
}
