//! The settings of a run, from the options and the variables of its call.
ghost use Rattle.std.specs.Prelude.{◌≡◌, map, string_bytes, option_map, IfOk, IfSome};
ghost use Rattle.workload_text.specs.Reading.{number_of};
ghost use Rattle.script_run.specs.Fits.{AreInRange};
ghost use Rattle.call_words.specs.Calls.{option_number, setting_number, option_asked, setting_asked, all_asked, high_of, low_of, settings_of, that_go_together, reads_settings};
ghost use Rattle.call_words.specs.InsideAsked.{option_in, setting_in, InRange, IsRead, stripes_in, faults_in};

use crate::fault::{OptionName, SettingName, WordsFault};
use crate::limits::{MOST_AHEAD, MOST_EVICTORS, MOST_FILLERS, MOST_HIGH, MOST_LOW};
use crate::options::SerialOptions;
use crate::variables::first_value_of;
use page_base::{
    LEAST_PAGE_SIZE, Layout, MOST_BUFFER_BYTES, MOST_FAULTS, MOST_FRAMES, MOST_PAGE_SIZE,
    MOST_STRIPES,
};
use script_run::{
    DEFAULT_AHEAD, DEFAULT_EVICTORS, DEFAULT_FAULTS, DEFAULT_FILLERS, DEFAULT_FRAMES, DEFAULT_HIGH,
    DEFAULT_LOW, DEFAULT_PAGE_SIZE, DEFAULT_STRIPES, Settings,
};
use workload_text::number;

/// What a call asks for, each number in its range; None where it asks for nothing.
#[derive(Clone, Copy)]
pub struct Asked {
    pub stripes: Option<u32>,
    pub faults: Option<u32>,
    pub page_size: Option<u32>,
    pub frames: Option<u32>,
    pub fillers: Option<u32>,
    pub evictors: Option<u32>,
    pub high: Option<u32>,
    pub low: Option<u32>,
    pub ahead: Option<u32>,
}

/// The number that a text spells, where it is in the range.
fn small_number(text: &str, least: u32, most: u32) -> Option<u32>
    ensures { result ≡ number_of least most text.now }
{
    match number(text.as_bytes(), u64::from(least), u64::from(most)) {
        Some(n) => Some(n as u32),
        None => None,
    }
}

fn page_size(text: &str) -> Option<u32>
    ensures { result ≡ setting_number SettingName.PageSize text.now }
{
    let n = small_number(text, LEAST_PAGE_SIZE, MOST_PAGE_SIZE)?;
    if n.is_power_of_two() { Some(n) } else { None }
}

fn option_number(name: OptionName, text: &str) -> Option<u32>
    ensures { result ≡ option_number name text.now }
{
    match name {
        OptionName::Stripes => small_number(text, 1, MOST_STRIPES),
        OptionName::Faults => small_number(text, 1, MOST_FAULTS),
    }
}

fn setting_number(name: SettingName, text: &str) -> Option<u32>
    ensures { result ≡ setting_number name text.now }
{
    match name {
        SettingName::PageSize => page_size(text),
        SettingName::BufSize => small_number(text, 1, MOST_FRAMES),
        SettingName::PageFillers => small_number(text, 1, MOST_FILLERS),
        SettingName::PageEvictors => small_number(text, 1, MOST_EVICTORS),
        SettingName::HighWater => small_number(text, 1, MOST_HIGH),
        SettingName::LowWater => small_number(text, 0, MOST_LOW),
        SettingName::ReadAhead => small_number(text, 0, MOST_AHEAD),
    }
}

/// What an option asks for.
fn option_asked(name: OptionName, value: Option<&str>) -> Result<Option<u32>, WordsFault>
    ensures asked { result ≡ option_asked name (option_map (λ v. v.now) value.entry) }
    ensures range { IfOk result (λ o. IfSome o (option_in name)) }
{
    let Some(text) = value else {
        return Ok(None);
    };
    match option_number(name, text) {
        Some(n) => Ok(Some(n)),
        None => Err(WordsFault::BadOption { name }),
    }
}

/// What the first variable of a setting asks for.
fn setting_asked(name: SettingName, vars: &[String]) -> Result<Option<u32>, WordsFault>
    ensures asked { result ≡ setting_asked name (map string_bytes vars.now) }
    ensures range { IfOk result (λ o. IfSome o (setting_in name)) }
{
    let Some(text) = first_value_of(name.text(), vars) else {
        return Ok(None);
    };
    match setting_number(name, text) {
        Some(n) => Ok(Some(n)),
        None => Err(WordsFault::BadSetting { name }),
    }
}

/// All that a call asks for, or the first refusal.
#[tactic(auto, unfolding(crate::specs::Calls::all_asked))]
fn all_asked(options: &SerialOptions, vars: &[String]) -> Result<Asked, WordsFault>
    ensures asked { result ≡ all_asked (stripes_in options.now) (faults_in options.now) (map string_bytes vars.now) }
    ensures range { IfOk result InRange }
{
    let stripes = option_asked(OptionName::Stripes, options.stripes)?;
    let faults = option_asked(OptionName::Faults, options.faults)?;
    let page_size = setting_asked(SettingName::PageSize, vars)?;
    let frames = setting_asked(SettingName::BufSize, vars)?;
    let fillers = setting_asked(SettingName::PageFillers, vars)?;
    let evictors = setting_asked(SettingName::PageEvictors, vars)?;
    let high = setting_asked(SettingName::HighWater, vars)?;
    let low = setting_asked(SettingName::LowWater, vars)?;
    let ahead = setting_asked(SettingName::ReadAhead, vars)?;
    Ok(Asked {
        stripes,
        faults,
        page_size,
        frames,
        fillers,
        evictors,
        high,
        low,
        ahead,
    })
}

/// The high watermark, in percent: a missing one makes room above the low one.
fn high_of(high: Option<u32>, low: Option<u32>) -> u32
    requires { IfSome low (setting_in SettingName.LowWater) }
    ensures { result ≡ high_of high low }
{
    match (high, low) {
        (Some(high), _) => high,
        (None, Some(low)) => {
            if low < DEFAULT_HIGH {
                DEFAULT_HIGH
            } else {
                low + 1
            }
        }
        (None, None) => DEFAULT_HIGH,
    }
}

/// The low watermark, in percent: a missing one makes room below the high one.
fn low_of(high: Option<u32>, low: Option<u32>) -> u32
    requires { IfSome high (setting_in SettingName.HighWater) }
    ensures { result ≡ low_of high low }
{
    match (low, high) {
        (Some(low), _) => low,
        (None, Some(high)) => {
            if DEFAULT_LOW < high {
                DEFAULT_LOW
            } else {
                high - 1
            }
        }
        (None, None) => DEFAULT_LOW,
    }
}

/// The settings, where those that are asked for go together with the defaults of the others.
fn settled(asked: &Asked) -> Result<Settings, WordsFault>
    requires { InRange asked.now }
    ensures read { IsRead (that_go_together (settings_of asked.now)) result }
    ensures ranges { IfOk result AreInRange }
{
    let high = high_of(asked.high, asked.low);
    let low = low_of(asked.high, asked.low);
    if high <= low {
        return Err(WordsFault::BadSetting {
            name: SettingName::LowWater,
        });
    }
    let page_size = asked.page_size.unwrap_or(DEFAULT_PAGE_SIZE);
    let frames = asked.frames.unwrap_or(DEFAULT_FRAMES);
    if u64::from(frames) * u64::from(page_size) > MOST_BUFFER_BYTES {
        return Err(WordsFault::BadSetting {
            name: SettingName::BufSize,
        });
    }
    let stripes = asked.stripes.unwrap_or(DEFAULT_STRIPES.min(frames));
    if stripes > frames {
        return Err(WordsFault::BadOption {
            name: OptionName::Stripes,
        });
    }
    match Layout::new(page_size, stripes, frames) {
        Ok(layout) => Ok(Settings {
            layout,
            fillers: asked.fillers.unwrap_or(DEFAULT_FILLERS),
            evictors: asked.evictors.unwrap_or(DEFAULT_EVICTORS),
            high,
            low,
            ahead: asked.ahead.unwrap_or(DEFAULT_AHEAD),
            faults: asked.faults.unwrap_or(DEFAULT_FAULTS),
        }),
        Err(_) => unreachable!(),
    }
}

/// The settings of options and variables, or the first refusal.
pub fn settings_of(options: &SerialOptions, vars: &[String]) -> Result<Settings, WordsFault>
    ensures read { IsRead (reads_settings (stripes_in options.now) (faults_in options.now) (map string_bytes vars.now))
        result }
    ensures ranges { IfOk result AreInRange }
{
    let asked = all_asked(options, vars)?;
    settled(&asked)
}
