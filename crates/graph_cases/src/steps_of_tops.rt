//! Steps of signatures, functors and tops.

use crate::scene::{GraphScene, env_of, fun_of, sig_of, texts_line, top_of};
use case_files::{Part, number_of, push_parts};
use case_texts::line;
use cm_base::{List, NoMemory, Text};
use semantic_objects::{Owner, TyName};
use sml_modules::{FunParts, SigParts, TopId};

impl GraphScene {
    /// So many type names of a binder, from a number on.
    fn bound_names(&self, from: u32, count: u32) -> Result<List<TyName>, NoMemory> {
        let mut names = List::new(self.alloc);
        for number in from..count {
            names.add(TyName {
                owner: Owner::Bound,
                number: u64::from(number),
                arity: 0,
                eq: true,
            })?;
        }
        Ok(names)
    }

    /// A signature that binds so many names.
    fn make_sig(&mut self, env: &Text, count: &Text) -> Result<Option<Vec<u8>>, NoMemory> {
        let Some(count) = number_of(count.as_bytes()) else {
            return Ok(None);
        };
        let bound = self.bound_names(0, count)?;
        let Some(env) = env_of(&self.graph, &self.envs, env) else {
            return Ok(None);
        };
        let id = self.graph.make_sig(&SigParts { bound, env })?;
        self.keep_sig(id)
    }

    /// A functor that binds so many names, and up to how many in its result.
    fn make_fun(
        &mut self,
        param: &Text,
        count: &Text,
        outcome: &Text,
        further: &Text,
    ) -> Result<Option<Vec<u8>>, NoMemory> {
        let (Some(count), Some(end)) = (number_of(count.as_bytes()), number_of(further.as_bytes()))
        else {
            return Ok(None);
        };
        let bound = self.bound_names(0, count)?;
        let further = self.bound_names(count, end)?;
        let Some(param) = env_of(&self.graph, &self.envs, param) else {
            return Ok(None);
        };
        let Some(outcome) = env_of(&self.graph, &self.envs, outcome) else {
            return Ok(None);
        };
        let parts = FunParts {
            bound,
            param,
            further,
            result: outcome,
        };
        let id = self.graph.make_fun(&parts)?;
        self.keep_fun(id)
    }

    /// Adds the numbers of type names.
    fn push_names(&self, out: &mut Vec<u8>, names: &List<TyName>) -> Result<(), NoMemory> {
        for name in names.as_slice() {
            push_parts(
                self.alloc,
                out,
                &[Part::Text(b" "), Part::Number(name.number)],
            )?;
        }
        Ok(())
    }

    /// The parts of a signature: the numbers of its names, and its environment's facts' size.
    fn read_sig(&mut self, sig: &Text) -> Result<Option<Vec<u8>>, NoMemory> {
        let Some(sig) = sig_of(&self.graph, &self.sigs, sig) else {
            return Ok(None);
        };
        let parts = self.graph.read_sig(sig)?;
        let mut out = Vec::new(self.alloc);
        push_parts(self.alloc, &mut out, &[Part::Text(b"binds")])?;
        self.push_names(&mut out, &parts.bound)?;
        push_parts(self.alloc, &mut out, &[Part::Text(b" in ")])?;
        if let Some(number) = self.number_of_env(parts.env)? {
            push_parts(self.alloc, &mut out, &[Part::Text(number.as_slice())])?;
        }
        Ok(Some(out))
    }

    /// The parts of a functor.
    fn read_fun(&mut self, fun: &Text) -> Result<Option<Vec<u8>>, NoMemory> {
        let Some(fun) = fun_of(&self.graph, &self.funs, fun) else {
            return Ok(None);
        };
        let parts = self.graph.read_fun(fun)?;
        let mut out = Vec::new(self.alloc);
        push_parts(self.alloc, &mut out, &[Part::Text(b"binds")])?;
        self.push_names(&mut out, &parts.bound)?;
        push_parts(self.alloc, &mut out, &[Part::Text(b" then")])?;
        self.push_names(&mut out, &parts.further)?;
        push_parts(self.alloc, &mut out, &[Part::Text(b" in ")])?;
        if let Some(number) = self.number_of_env(parts.result)? {
            push_parts(self.alloc, &mut out, &[Part::Text(number.as_slice())])?;
        }
        Ok(Some(out))
    }

    /// A top with one signature more.
    fn with_signature(
        &mut self,
        top: TopId,
        name: &Text,
        sig: &Text,
    ) -> Result<Option<Vec<u8>>, NoMemory> {
        let Some(sig) = sig_of(&self.graph, &self.sigs, sig) else {
            return Ok(None);
        };
        if !self.graph.has_top(top) {
            return Ok(None);
        }
        let id = self.graph.with_signature(top, name, sig)?;
        self.keep_top(id)
    }

    /// A top with one functor, or one signature of functors, more.
    fn with_fun(
        &mut self,
        is_functor: bool,
        top: TopId,
        name: &Text,
        fun: &Text,
    ) -> Result<Option<Vec<u8>>, NoMemory> {
        let Some(fun) = fun_of(&self.graph, &self.funs, fun) else {
            return Ok(None);
        };
        if !self.graph.has_top(top) {
            return Ok(None);
        }
        let id = if is_functor {
            self.graph.with_functor(top, name, fun)?
        } else {
            self.graph.with_funsig(top, name, fun)?
        };
        self.keep_top(id)
    }

    /// A top with another environment.
    fn with_env(&mut self, top: TopId, env: &Text) -> Result<Option<Vec<u8>>, NoMemory> {
        let Some(env) = env_of(&self.graph, &self.envs, env) else {
            return Ok(None);
        };
        if !self.graph.has_top(top) {
            return Ok(None);
        }
        let id = self.graph.with_env(top, env)?;
        self.keep_top(id)
    }

    /// The signature of a name.
    fn signature(&mut self, top: TopId, name: &Text) -> Result<Option<Vec<u8>>, NoMemory> {
        if !self.graph.has_top(top) {
            return Ok(None);
        }
        match self.graph.find_signature(top, name)? {
            Some(id) => self.number_of_sig(id),
            None => Ok(Some(line(self.alloc, b"none")?)),
        }
    }

    /// The functor, or the signature of functors, of a name.
    fn functor(
        &mut self,
        is_functor: bool,
        top: TopId,
        name: &Text,
    ) -> Result<Option<Vec<u8>>, NoMemory> {
        if !self.graph.has_top(top) {
            return Ok(None);
        }
        let found = if is_functor {
            self.graph.find_functor(top, name)?
        } else {
            self.graph.find_funsig(top, name)?
        };
        match found {
            Some(id) => self.number_of_fun(id),
            None => Ok(Some(line(self.alloc, b"none")?)),
        }
    }

    /// The names of a top's tables.
    fn top_names(&self, table: &[u8], top: TopId) -> Result<Option<Vec<u8>>, NoMemory> {
        if !self.graph.has_top(top) {
            return Ok(None);
        }
        let names = match table {
            b"signatures" => self.graph.names_signature(top)?,
            b"functors" => self.graph.names_functor(top)?,
            _ => self.graph.names_funsig(top)?,
        };
        texts_line(self.alloc, &names)
    }

    /// The environment of a top.
    fn env_of_top(&mut self, top: TopId) -> Result<Option<Vec<u8>>, NoMemory> {
        if !self.graph.has_top(top) {
            return Ok(None);
        }
        let id = self.graph.env_of(top)?;
        self.number_of_env(id)
    }

    /// What is answered to a step on a top.
    fn step_on_top(
        &mut self,
        step: &[u8],
        top: TopId,
        rest: &[Text],
    ) -> Result<Option<Vec<u8>>, NoMemory> {
        match (step, rest) {
            (b"with-signature", [name, sig]) => self.with_signature(top, name, sig),
            (b"with-functor", [name, fun]) => self.with_fun(true, top, name, fun),
            (b"with-funsig", [name, fun]) => self.with_fun(false, top, name, fun),
            (b"with-env", [env]) => self.with_env(top, env),
            (b"signature", [name]) => self.signature(top, name),
            (b"functor", [name]) => self.functor(true, top, name),
            (b"funsig", [name]) => self.functor(false, top, name),
            (b"signatures", []) => self.top_names(step, top),
            (b"functors", []) => self.top_names(step, top),
            (b"funsigs", []) => self.top_names(step, top),
            (b"env-of", []) => self.env_of_top(top),
            _ => Ok(None),
        }
    }

    /// What is answered to a step of this kind.
    pub fn top_step(&mut self, step: &[u8], words: &[Text]) -> Result<Option<Vec<u8>>, NoMemory> {
        match (step, words) {
            (b"empty-top", []) => {
                let id = self.graph.empty_top()?;
                self.keep_top(id)
            }
            (b"make-sig", [env, count]) => self.make_sig(env, count),
            (b"make-fun", [param, count, outcome, further]) => self.make_fun(
                param, count, outcome, further,
            ),
            (b"read-sig", [sig]) => self.read_sig(sig),
            (b"read-fun", [fun]) => self.read_fun(fun),
            (_, [top, rest @ ..]) => match top_of(&self.graph, &self.tops, top) {
                Some(top) => self.step_on_top(step, top, rest),
                None => Ok(None),
            },
            _ => Ok(None),
        }
    }
}
