//! The scripts of a call, one file a session.

ghost use Rattle.std.specs.Prelude.{◌≡◌, ◌≤◌, ◌++◌, ◌∷◌, [], All, IfErr, IfOk, OnOk, length, map, string_bytes};
ghost use Rattle.export_laws.specs.ExportedCells.{IsScriptOfText};
ghost use Rattle.sessions.specs.Replays.{IsShortScript, session_limit};
ghost use Rattle.room_laws.specs.Orders.{quotas_of as spec_quotas_of};
ghost use Rattle.call_files.specs.Inputs.{IsAmong, IsFile, IsInputStatus, IsJudgedScript, IsReachedScript, IsScriptWithin, ScriptIs, ScriptsAre, Tells};
ghost use Rattle.call_files.specs.Inputs.{IsNotOfOrder, TellsReads, script_limit};

use crate::input::read_input;
use enc_outside::Shelf;
use report_text::Status;
use script_text::{Script, ScriptRefusal, read_script};
use std::alloc::{AllocError, Global};

/// How many bytes a script file may have.
const SCRIPT_LIMIT: usize = 1_048_576;

/// The script of a session that bytes are.
fn judge_script(alloc: Global, bytes: &[u8], session: u32) -> Result<Script, Status>
    requires small { length bytes.now ≤ script_limit }
    ensures judged { IsJudgedScript session bytes.now result }
    ensures short { IfOk result IsShortScript }
    ensures of_text { IfOk result IsScriptOfText }
    ensures within { IfOk result IsScriptWithin }
    ensures status { IfErr result (IsInputStatus (λ n. ⊥)) }
    ensures kind { IfErr result IsNotOfOrder }
{
    match read_script(alloc, bytes) {
        Ok(script) => Ok(script),
        Err(ScriptRefusal::Fault { line, code }) => Err(Status::BadScript(session, line, code)),
        Err(ScriptRefusal::NoMemory) => Err(Status::NoMemory),
    }
}

/// The script of a session in an input file. An `Err` is the status at which the call ends.
pub fn script_in_file<H: Shelf>(
    alloc: Global,
    shelf: &mut H,
    name: &str,
    session: u32,
) -> Result<Script, Status>
    ensures tells { Tells (λ script. script) (ScriptIs session name.now) (IsFile name.now)
        (H.files shelf.old) (H.read_faults shelf.old) (H.read_faults shelf.new) result }
    ensures short { IfOk result IsShortScript }
    ensures of_text { IfOk result IsScriptOfText }
    ensures within { IfOk result IsScriptWithin }
    ensures status { IfErr result (IsInputStatus (λ n. n ≡ name.now)) }
    ensures kind { IfErr result IsNotOfOrder }
    ensures files { H.files shelf.new ≡ H.files shelf.old }
    ensures read_faults { H.read_faults shelf.old ≤ H.read_faults shelf.new }
    ensures told_reads { TellsReads (H.read_faults shelf.old) (H.read_faults shelf.new) result }
    ensures write_faults { H.write_faults shelf.new ≡ H.write_faults shelf.old }
{
    let bytes = read_input(alloc, shelf, name, SCRIPT_LIMIT)?;
    judge_script(alloc, &bytes, session)
}

/// Appends a script.
fn push_script(scripts: &mut Vec<Script>, script: Script) -> Result<(), AllocError>
    ensures { OnOk result (scripts.new.items ≡ scripts.old.items ++ script ∷ []) }
{
    scripts.push(script)?;
    Ok(())
}

/// The scripts of sessions in input files, in order. An `Err` is the status at which the call ends.
pub fn scripts_in_files<H: Shelf>(
    alloc: Global,
    shelf: &mut H,
    names: &[String],
) -> Result<Vec<Script>, Status>
    requires few { length names.now ≤ session_limit }
    ensures tells { Tells (λ scripts. scripts.items) (ScriptsAre (map string_bytes names.now)) (λ fs n. IsReachedScript (map string_bytes names.now) fs n)
        (H.files shelf.old) (H.read_faults shelf.old) (H.read_faults shelf.new) result }
    ensures many { IfOk result (λ scripts. length scripts.items ≡ length names.now) }
    ensures short { IfOk result (λ scripts. All IsShortScript scripts.items) }
    ensures of_texts { IfOk result (λ scripts. All IsScriptOfText scripts.items) }
    ensures status { IfErr result (IsInputStatus (IsAmong (map string_bytes names.now))) }
    ensures kind { IfErr result IsNotOfOrder }
    ensures files { H.files shelf.new ≡ H.files shelf.old }
    ensures read_faults { H.read_faults shelf.old ≤ H.read_faults shelf.new }
    ensures told_reads { TellsReads (H.read_faults shelf.old) (H.read_faults shelf.new) result }
    ensures write_faults { H.write_faults shelf.new ≡ H.write_faults shelf.old }
{
    let mut scripts = Vec::new(alloc);
    for (k, name) in names.iter().enumerate() {
        let session = k as u32 + 1;
        let script = script_in_file(alloc, shelf, name.as_str(), session)?;
        push_script(&mut scripts, script)?;
    }
    Ok(scripts)
}

/// How many views and commits each script has. An `Err` means out of memory.
pub fn quotas_of(alloc: Global, scripts: &[Script]) -> Result<Vec<u32>, AllocError>
    ensures { IfOk result (λ quotas. quotas.items ≡ spec_quotas_of scripts.now) }
{
    let mut quotas = Vec::new(alloc);
    for script in scripts {
        quotas.push(script.shared())?;
    }
    Ok(quotas)
}
