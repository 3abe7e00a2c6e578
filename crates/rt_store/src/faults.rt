// How often a store fails, and what a crash keeps.

/// Rates of injected faults, in parts per million; a larger number acts as 1,000,000. All are 0 by default.
#[derive(Clone, Copy, Debug, PartialEq, Eq, Default)]
pub struct FaultConfig {
    pub open_rate: u32,
    pub read_rate: u32,
    pub sync_rate: u32,
    pub remove_rate: u32,
    pub scan_rate: u32,
    pub write: WriteConfig,
    pub resize: ResizeConfig,
}

/// Rates of writes: how often they fail, and how often a crash keeps one that wasn't synced, in parts per million.
#[derive(Clone, Copy, Debug, PartialEq, Eq, Default)]
pub struct WriteConfig {
    pub rate: u32,
    pub keep: u32,
    pub partial: PartialWriteMode,
}

/// Rates of changes of length: how often they fail, and how often a crash keeps one that wasn't synced, in parts per
/// million.
#[derive(Clone, Copy, Debug, PartialEq, Eq, Default)]
pub struct ResizeConfig {
    pub rate: u32,
    pub keep: u32,
}

/// What a crash leaves of a write that it doesn't keep: nothing, or its first bytes.
#[derive(Clone, Copy, Debug, PartialEq, Eq)]
pub enum PartialWriteMode {
    Off,
    Prefix,
}

impl Default for PartialWriteMode {
    ghost use Rattle.std.specs.Prelude.{◌≡◌};
    ghost use Rattle.rt_store.specs.declared.faults.PartialWriteMode.TheVariants.{Off};

    ghost is_default = { λ mode. mode ≡ Off };

    fn default() -> PartialWriteMode {
        PartialWriteMode::Off
    }
}
