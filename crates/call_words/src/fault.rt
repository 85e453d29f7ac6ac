//! Why a call is refused, and the names that a refusal tells.
ghost use Rattle.std.specs.Prelude.{◌≡◌, ◌≤◌, length};
ghost use Rattle.call_words.specs.Calls.{option_text, setting_text};

use thiserror::Error;

/// The options of the commands that are built.
#[derive(Clone, Copy, Debug, PartialEq, Eq)]
pub enum OptionName {
    Stripes,
    Faults,
}

impl OptionName {
    /// The option's name, without the hyphens before it.
    pub fn text(self) -> &'static str
        ensures text { result.now ≡ option_text self }
        ensures short { length result.now ≤ 7 }
    {
        match self {
            OptionName::Stripes => "stripes",
            OptionName::Faults => "faults",
        }
    }
}

/// The settings that variables of the environment give.
#[derive(Clone, Copy, Debug, PartialEq, Eq)]
pub enum SettingName {
    PageSize,
    BufSize,
    PageFillers,
    PageEvictors,
    HighWater,
    LowWater,
    ReadAhead,
}

impl SettingName {
    /// All of them, in the order in which they are read.
    pub(crate) fn all() -> [SettingName; 7] {
        [
            SettingName::PageSize,
            SettingName::BufSize,
            SettingName::PageFillers,
            SettingName::PageEvictors,
            SettingName::HighWater,
            SettingName::LowWater,
            SettingName::ReadAhead,
        ]
    }

    /// The name of the setting's variable.
    pub fn text(self) -> &'static str
        ensures text { result.now ≡ setting_text self }
        ensures short { length result.now ≤ 31 }
    {
        match self {
            SettingName::PageSize => "UMAP_PAGESIZE",
            SettingName::BufSize => "UMAP_BUFSIZE",
            SettingName::PageFillers => "UMAP_PAGE_FILLERS",
            SettingName::PageEvictors => "UMAP_PAGE_EVICTORS",
            SettingName::HighWater => "UMAP_EVICT_HIGH_WATER_THRESHOLD",
            SettingName::LowWater => "UMAP_EVICT_LOW_WATER_THRESHOLD",
            SettingName::ReadAhead => "UMAP_READ_AHEAD",
        }
    }
}

/// Why words and variables are no call that can be run: the first refusal.
#[derive(Clone, Copy, Debug, PartialEq, Eq, Error)]
pub enum WordsFault {
    #[error("there are no words")]
    NoCommand,
    #[error("the first word is no command")]
    UnknownCommand,
    /// The command is known, and the words behind it aren't its options, each at most once and with a value.
    #[error("the words behind the command are refused")]
    Words,
    /// An option's value is no number in its range, or there are more stripes than pages.
    #[error("an option is refused")]
    BadOption { name: OptionName },
    /// A setting's value is no number in its range, or doesn't go with the others.
    #[error("a setting is refused")]
    BadSetting { name: SettingName },
}

/// Why a call gives no settings.
#[derive(Clone, Copy, Debug, PartialEq, Eq, Error)]
pub enum CallFault {
    #[error("the words or the settings are refused")]
    Refused(WordsFault),
    #[error("out of memory")]
    OutOfMemory,
}
