//! What the program was called with, and the settings that it gives.
ghost use Rattle.std.specs.Prelude.{◌≡◌, ◌-◌, ◌++◌, length, map, drop, string_bytes, Ok, IfOk, IfErr};
ghost use Rattle.std.specs.Vec.Iter.{into_iter_items, into_iter_len};
ghost use Rattle.script_run.specs.Fits.{AreInRange};
ghost use Rattle.call_words.specs.Calls.{reads_of, settings_seen, RefusedBy, MayWantMemory, IsNoCall};

use crate::fault::{CallFault, SettingName, WordsFault};
use crate::options::serial_options;
use crate::settings::settings_of;
use page_base::{OutOfMemory, Texts};
use script_run::Settings;
use std::alloc::Global;
use std::env::{self, Args, Env, VarError};
use std::io::ErrorKind;

/// What the program was called with.
#[derive(Drop)]
pub struct Call {
    /// The words after the program's name.
    pub words: Texts,
    /// The environment, as texts `NAME=value`. Other names than those of the settings are passed over.
    pub vars: Texts,
}

/// The settings that a call gives, or its first refusal: the words, the options in their order, the settings in theirs, and the
/// rules that join them. `OutOfMemory` may come where the words behind `serial` are read, and has no other cause.
pub fn settings_of_call(alloc: Global, call: &Call) -> Result<Settings, CallFault>
    ensures settings { IfOk result (λ s. reads_of call.now ≡ Ok (settings_seen s)) }
    ensures ranges { IfOk result AreInRange }
    ensures refused { IfErr result (RefusedBy (reads_of call.now)) }
    ensures memory { IfErr result (MayWantMemory call.now.words.items) }
{
    let words = call.words.as_slice();
    if words.is_empty() {
        return Err(CallFault::Refused(WordsFault::NoCommand));
    }
    if words[0].as_str() != "serial" {
        return Err(CallFault::Refused(WordsFault::UnknownCommand));
    }
    let options = match serial_options(alloc, &words[1..]) {
        Ok(options) => options,
        Err(fault) => return Err(fault),
    };
    match settings_of(&options, call.vars.as_slice()) {
        Ok(settings) => Ok(settings),
        Err(fault) => Err(CallFault::Refused(fault)),
    }
}

/// All words behind the first one, which is the program's name.
fn behind_name(alloc: Global, mut args: Args) -> Result<Texts, OutOfMemory>
    ensures all { IfOk result (λ words. length words.items ≡ into_iter_len args - 1) }
    ensures bytes { IfOk result (λ words. (rest : _) ×
        (drop 1 (map string_bytes (into_iter_items args)) ≡ words.items ++ rest)) }
{
    let mut words = Texts::new(alloc);
    let Some(_name) = args.next() else {
        return Ok(words);
    };
    'words: while let Some(word) = args.next() {
        words.reserve(1)?;
        words.put(word);
    }
    Ok(words)
}

/// A value of the environment. One that is no text is handed over as empty, which no setting takes.
fn var_of<R: Env + AllocGlobal>(rt: &R, name: &str) -> Result<Option<String>, OutOfMemory> {
    match env::var(rt, name) {
        Ok(value) => Ok(Some(value)),
        Err(VarError::NotPresent) => Ok(None),
        Err(VarError::NotUnicode) => Ok(Some(String::new(rt.alloc()))),
        Err(VarError::OutOfMemory) => Err(OutOfMemory),
    }
}

/// The variables of the settings.
fn setting_vars<R: Env + AllocGlobal>(rt: &R) -> Result<Texts, OutOfMemory> {
    let mut vars = Texts::new(rt.alloc());
    for name in SettingName::all() {
        let Some(value) = var_of(rt, name.text())? else {
            continue;
        };
        let text = format!(in rt.alloc(); "{}={}", name.text(), value.as_str())?;
        vars.reserve(1)?;
        vars.put(text);
    }
    Ok(vars)
}

/// What the program was called with; of the environment the variables of the settings alone. Where memory runs out there is no
/// call, whatever was read before. A word that is no text is refused; a variable that is none is handed over as empty.
///
/// Which words and values these are no clause can name: std's calls that read them of the system promise nothing of what they
/// read.
pub fn read_call<R: Env + AllocGlobal>(rt: &R) -> Result<Call, CallFault>
    ensures only { IfErr result IsNoCall }
{
    let args = match env::args(rt) {
        Ok(args) => args,
        Err(fault) => {
            return Err(match fault.kind() {
                ErrorKind::OutOfMemory => CallFault::OutOfMemory,
                _ => CallFault::Refused(WordsFault::Words),
            });
        }
    };
    let Ok(words) = behind_name(rt.alloc(), args) else {
        return Err(CallFault::OutOfMemory);
    };
    match setting_vars(rt) {
        Ok(vars) => Ok(Call { words, vars }),
        Err(_) => Err(CallFault::OutOfMemory),
    }
}
