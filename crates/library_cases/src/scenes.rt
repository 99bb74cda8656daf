//! The kinds of cases of steps: what answers to the steps of each.

use crate::fields::FieldsScene;
use crate::folders::{MemScene, SureScene};
use crate::kind::SceneKind;
use crate::sinks::{MemSinkScene, SureSinkScene};
use case_files::{Case, CaseFault, Report};
use case_texts::take_steps;
use cm_base::{MemFolder, MemSink, SureFolder, SureSink};
use cm_bytes::Reader;
use std::alloc::Global;

/// Reads the fields of the section `bytes`.
fn try_fields(alloc: Global, case: &Case, report: &mut Report) -> Result<(), CaseFault> {
    case.has_only(&[b"bytes", b"steps"])?;
    let bytes = case.the(b"bytes")?.bytes(alloc)?;
    let mut scene = FieldsScene {
        reader: Reader::new(bytes.as_bytes()),
    };
    take_steps(alloc, &mut scene, case, report)
}

/// Takes the steps of a folder that is empty and doesn't fail.
fn try_sure_folder(alloc: Global, case: &Case, report: &mut Report) -> Result<(), CaseFault> {
    case.has_only(&[b"steps"])?;
    let mut scene = SureScene {
        folder: SureFolder::new(alloc),
    };
    take_steps(alloc, &mut scene, case, report)
}

/// Takes the steps of a folder that is empty.
fn try_folder(alloc: Global, case: &Case, report: &mut Report) -> Result<(), CaseFault> {
    case.has_only(&[b"steps"])?;
    let mut scene = MemScene {
        folder: MemFolder::new(alloc),
    };
    take_steps(alloc, &mut scene, case, report)
}

/// Takes the steps of a sink that is empty and doesn't fail.
fn try_sure_sink(alloc: Global, case: &Case, report: &mut Report) -> Result<(), CaseFault> {
    case.has_only(&[b"steps"])?;
    let mut scene = SureSinkScene {
        sink: SureSink::new(alloc),
    };
    take_steps(alloc, &mut scene, case, report)
}

/// Takes the steps of a sink that is empty.
fn try_sink(alloc: Global, case: &Case, report: &mut Report) -> Result<(), CaseFault> {
    case.has_only(&[b"steps"])?;
    let mut scene = MemSinkScene {
        sink: MemSink::new(alloc),
    };
    take_steps(alloc, &mut scene, case, report)
}

/// Tries a case of a kind.
pub fn try_kind(
    alloc: Global,
    kind: SceneKind,
    case: &Case,
    report: &mut Report,
) -> Result<(), CaseFault> {
    match kind {
        SceneKind::Fields => try_fields(alloc, case, report),
        SceneKind::SureFolder => try_sure_folder(alloc, case, report),
        SceneKind::Folder => try_folder(alloc, case, report),
        SceneKind::SureSink => try_sure_sink(alloc, case, report),
        SceneKind::Sink => try_sink(alloc, case, report),
    }
}
