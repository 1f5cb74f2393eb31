//! An empty base, and the area over it.
ghost use Rattle.std.specs.Prelude.{◌≡◌, IfErr, IfOk, OnOk};
ghost use Rattle.std.specs.Option.{ForSome, option_map};
ghost use Rattle.jb_change.specs.NewBase.{new_loaded};
ghost use Rattle.jb_decide.specs.Errors.{is_area_fault};
ghost use Rattle.jb_decide.specs.declared.error.AreaError.TheVariants.{OutOfMemory as no_memory};
ghost use Rattle.jb_disk.specs.Device.{TellsAlike, CountsFaults, is_disk_fault};
ghost use Rattle.jb_disk.specs.Files.{with_file};
ghost use Rattle.jb_disk.specs.Runs.{IsAllSynced};
ghost use Rattle.jb_disk.specs.declared.file.FileId.TheVariants.{Jhr};
ghost use Rattle.jb_tool.specs.LoadBase.{HaveNoByte, IsEmptyBase, empty_header};
ghost use Rattle.jb_tool.specs.LoadRuns.{IsLoadReady, RestsAs, device_then};
ghost use Rattle.jb_tool.specs.Workload.{empty_area};
ghost use Rattle.jb_record.specs.Fixed.{fixed_header_bytes};

use crate::workload::load_rules;
use jb_area::{AreaError, OpenArea};
use jb_change::new_loaded;
use jb_disk::{Disk, DiskFailed, FileId};
use jb_image::fixed_of;
use jb_journal::{prepare, sync_all};
use jb_record::encode_fixed;
use jb_state::Loaded;
use std::alloc::Global;

/// The bytes of its fixed header.
fn header(loaded: &Loaded) -> [u8; 1024]
    requires { loaded.now ≡ new_loaded 0 }
    ensures { result ≡ fixed_header_bytes empty_header }
{
    encode_fixed(&fixed_of(loaded))
}

/// Writes the fixed header into an empty .JHR.
fn write_header<D: Disk>(disk: &mut D, loaded: &Loaded) -> Result<(), DiskFailed>
    requires loaded { loaded.now ≡ new_loaded 0 }
    requires empty { ForSome (D.device disk.old).contents HaveNoByte }
    ensures told { OnOk result ((D.device disk.new).contents
        ≡ option_map (with_file Jhr (fixed_header_bytes empty_header)) (D.device disk.old).contents) }
    ensures synced { OnOk result (IsAllSynced (D.device disk.old) → IsAllSynced (D.device disk.new)) }
    ensures faults { CountsFaults is_disk_fault (D.device disk.old) (D.device disk.new) result }
    ensures alike { TellsAlike (D.device disk.old) (D.device disk.new) }
{
    let bytes = header(loaded);
    disk.set_len(FileId::Jhr, 1_024)?;
    disk.write_at(FileId::Jhr, 0, &bytes)?;
    disk.sync(FileId::Jhr)
}

/// Makes the files of an empty base, and its journal ready. What was not synced before is.
fn make<D: Disk>(disk: &mut D, loaded: &Loaded) -> Result<(), AreaError>
    requires loaded { loaded.now ≡ new_loaded 0 }
    requires empty { ForSome (D.device disk.old).contents HaveNoByte }
    ensures made { OnOk result (ForSome (D.device disk.new).contents IsEmptyBase) }
    ensures synced { OnOk result (IsAllSynced (D.device disk.new)) }
    ensures faults { CountsFaults is_area_fault (D.device disk.old) (D.device disk.new) result }
    ensures alike { TellsAlike (D.device disk.old) (D.device disk.new) }
{
    sync_all(disk)?;
    write_header(disk, loaded)?;
    match prepare(disk) {
        Ok(()) => Ok(()),
        Err(_stopped) => Err(AreaError::StoreFault),
    }
}

/// Opens the area over the files of an empty base.
fn open<D: Disk>(alloc: Global, disk: D, loaded: Loaded) -> Result<OpenArea<D>, (D, AreaError)>
    requires loaded { loaded ≡ new_loaded 0 }
    requires made { ForSome (D.device disk).contents IsEmptyBase }
    requires synced { IsAllSynced (D.device disk) }
    ensures ready { IfOk result (IsLoadReady D.device) }
    ensures empty { IfOk result (λ area. RestsAs D.device area empty_area) }
    ensures kept { device_then D.device result ≡ D.device disk }
    ensures err { IfErr result (λ back. back.1 ≡ no_memory) }
{
    let Ok(rules) = load_rules(alloc) else {
        return Err((disk, AreaError::OutOfMemory));
    };
    match OpenArea::from_loaded(alloc, disk, loaded, rules) {
        Ok(area) => Ok(area),
        Err(disk) => Err((disk, AreaError::OutOfMemory)),
    }
}

/// Makes an empty base on a disk with empty files, and opens its area.
pub(crate) fn make_area<D: Disk>(alloc: Global, disk: D) -> Result<OpenArea<D>, (D, AreaError)>
    requires empty { ForSome (D.device disk).contents HaveNoByte }
    ensures ready { IfOk result (IsLoadReady D.device) }
    ensures empty { IfOk result (λ area. RestsAs D.device area empty_area) }
    ensures faults { CountsFaults (λ back.
        is_area_fault back.1) (D.device disk) (device_then D.device result) result }
    ensures alike { TellsAlike (D.device disk) (device_then D.device result) }
{
    let Ok(loaded) = new_loaded(alloc, 0) else {
        return Err((disk, AreaError::OutOfMemory));
    };
    let mut disk = disk;
    match make(&mut disk, &loaded) {
        Ok(()) => open(alloc, disk, loaded),
        Err(error) => Err((disk, error)),
    }
}
