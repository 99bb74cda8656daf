//! Bindings that are made of names and types alone.

ghost use Rattle.std.specs.Prelude.{◌≡◌, IfOk};

use crate::bare::{Full, to_list};
use crate::ty::{to_optional_ty, to_ty};
use bare_forms::name::{copy_long, copy_name, copy_names};
use cm_base::NoMemory;
use sml_trees::{
    ConBind, DatBind, ExBind, ExBody, FullConBind, FullDatBind, FullExBind, FullExBody,
    FullTypBind, FullTypDesc, FullValDesc, TypBind, TypDesc, ValDesc,
};
use std::alloc::Global;

impl Full for FullTypBind {
    type Bare = TypBind;

    ghost use Rattle.bare_forms.specs.Types.{bare_typ_bind};

    ghost bare = { bare_typ_bind };

    fn to_bare(&self, alloc: Global) -> Result<TypBind, NoMemory> {
        Ok(TypBind {
            tyvars: copy_names(alloc, self.tyvars.as_slice())?,
            name: copy_name(&self.name)?,
            ty: to_ty(alloc, &self.ty)?,
        })
    }
}

impl Full for FullConBind {
    type Bare = ConBind;

    ghost use Rattle.bare_forms.specs.Types.{bare_con_bind};

    ghost bare = { bare_con_bind };

    fn to_bare(&self, alloc: Global) -> Result<ConBind, NoMemory> {
        Ok(ConBind {
            name: copy_name(&self.name.name)?,
            arg: to_optional_ty(alloc, &self.arg)?,
        })
    }
}

impl Full for FullDatBind {
    type Bare = DatBind;

    ghost use Rattle.bare_forms.specs.Types.{bare_dat_bind};

    ghost bare = { bare_dat_bind };

    fn to_bare(&self, alloc: Global) -> Result<DatBind, NoMemory> {
        Ok(DatBind {
            tyvars: copy_names(alloc, self.tyvars.as_slice())?,
            name: copy_name(&self.name)?,
            cons: to_list(alloc, &self.cons)?,
        })
    }
}

impl Full for FullExBody {
    type Bare = ExBody;

    ghost use Rattle.bare_forms.specs.Types.{bare_ex_body};

    ghost bare = { bare_ex_body };

    fn to_bare(&self, alloc: Global) -> Result<ExBody, NoMemory> {
        match self {
            FullExBody::Plain => Ok(ExBody::Plain),
            FullExBody::Of(arg) => Ok(ExBody::Of(to_ty(alloc, arg)?)),
            FullExBody::Copy(long) => Ok(ExBody::Copy(copy_long(alloc, &long.long)?)),
        }
    }
}

impl Full for FullExBind {
    type Bare = ExBind;

    ghost use Rattle.bare_forms.specs.Types.{bare_ex_bind};

    ghost bare = { bare_ex_bind };

    fn to_bare(&self, alloc: Global) -> Result<ExBind, NoMemory> {
        Ok(ExBind {
            name: copy_name(&self.name.name)?,
            body: self.body.to_bare(alloc)?,
        })
    }
}

impl Full for FullValDesc {
    type Bare = ValDesc;

    ghost use Rattle.bare_forms.specs.Types.{bare_val_desc};

    ghost bare = { bare_val_desc };

    fn to_bare(&self, alloc: Global) -> Result<ValDesc, NoMemory> {
        Ok(ValDesc {
            name: copy_name(&self.name)?,
            ty: to_ty(alloc, &self.ty)?,
        })
    }
}

impl Full for FullTypDesc {
    type Bare = TypDesc;

    ghost use Rattle.bare_forms.specs.Types.{plain_desc};

    ghost bare = { plain_desc };

    fn to_bare(&self, alloc: Global) -> Result<TypDesc, NoMemory> {
        Ok(TypDesc {
            tyvars: copy_names(alloc, self.tyvars.as_slice())?,
            name: copy_name(&self.name)?,
        })
    }
}

impl Full for TypDesc {
    type Bare = TypDesc;

    ghost bare = { λ desc. desc };

    fn to_bare(&self, alloc: Global) -> Result<TypDesc, NoMemory> {
        Ok(TypDesc {
            tyvars: copy_names(alloc, self.tyvars.as_slice())?,
            name: copy_name(&self.name)?,
        })
    }
}
