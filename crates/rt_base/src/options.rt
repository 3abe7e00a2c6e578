// How bytes of a blob are read and written.
ghost use Rattle.std.specs.Prelude.{◌≡◌, ◌+◌, ◌↔◌, IsTrue};
ghost use Rattle.rt_base.specs.Options.{bit, HasReadOptions, HasWriteOptions, without_read_options, without_write_options};

use std::ops::{BitOr, BitOrAssign};

/// Hints for a read of a blob.
#[derive(Clone, Copy, Debug, PartialEq, Eq, Default)]
pub struct ReadOptions {
    dont_cache: bool,
}

/// Demands on a write of a blob, and hints for it.
#[derive(Clone, Copy, Debug, PartialEq, Eq, Default)]
pub struct WriteOptions {
    sync: bool,
    dont_cache: bool,
}

impl ReadOptions {
    /// Bit 0: the bytes aren't read again soon.
    pub const DONT_CACHE: ReadOptions = ReadOptions { dont_cache: true };

    /// Returns whether all bits of `options` are set.
    pub fn contains(self, options: ReadOptions) -> bool
        ensures { IsTrue result ↔ HasReadOptions self options }
    {
        self.dont_cache || !options.dont_cache
    }

    /// Returns the options with the bits of `options` cleared.
    pub fn without(self, options: ReadOptions) -> ReadOptions
        ensures { result ≡ without_read_options self options }
    {
        ReadOptions {
            dont_cache: self.dont_cache && !options.dont_cache,
        }
    }

    /// Returns the bits as a number.
    pub fn bits(self) -> u8
        ensures { result ≡ bit self.dont_cache 1 }
    {
        if self.dont_cache { 1 } else { 0 }
    }
}

impl BitOr for ReadOptions {
    ghost use Rattle.std.specs.Prelude.{◌≡◌};
    ghost use Rattle.rt_base.specs.Options.{united_read_options};

    type Output = ReadOptions;

    ghost bitor_gives = { λ a b both. both ≡ united_read_options a b };

    fn bitor(self, other: ReadOptions) -> ReadOptions {
        ReadOptions {
            dont_cache: self.dont_cache || other.dont_cache,
        }
    }
}

impl BitOrAssign for ReadOptions {
    ghost use Rattle.std.specs.Prelude.{◌≡◌};
    ghost use Rattle.rt_base.specs.Options.{united_read_options};

    ghost bitor_assign_gives = { λ a b both. both ≡ united_read_options a b };

    fn bitor_assign(&mut self, other: ReadOptions) {
        *self = *self | other;
    }
}

impl WriteOptions {
    /// Bit 0: the bytes are durable once the write has returned.
    pub const SYNC: WriteOptions = WriteOptions {
        sync: true,
        dont_cache: false,
    };

    /// Bit 1: the bytes aren't read again soon.
    pub const DONT_CACHE: WriteOptions = WriteOptions {
        sync: false,
        dont_cache: true,
    };

    /// Returns whether all bits of `options` are set.
    pub fn contains(self, options: WriteOptions) -> bool
        ensures { IsTrue result ↔ HasWriteOptions self options }
    {
        (self.sync || !options.sync) && (self.dont_cache || !options.dont_cache)
    }

    /// Returns the options with the bits of `options` cleared.
    pub fn without(self, options: WriteOptions) -> WriteOptions
        ensures { result ≡ without_write_options self options }
    {
        WriteOptions {
            sync: self.sync && !options.sync,
            dont_cache: self.dont_cache && !options.dont_cache,
        }
    }

    /// Returns the bits as a number.
    pub fn bits(self) -> u8
        ensures { result ≡ bit self.sync 1 + bit self.dont_cache 2 }
    {
        let sync = if self.sync { 1 } else { 0 };
        let dont_cache = if self.dont_cache { 2 } else { 0 };
        sync + dont_cache
    }
}

impl BitOr for WriteOptions {
    ghost use Rattle.std.specs.Prelude.{◌≡◌};
    ghost use Rattle.rt_base.specs.Options.{united_write_options};

    type Output = WriteOptions;

    ghost bitor_gives = { λ a b both. both ≡ united_write_options a b };

    fn bitor(self, other: WriteOptions) -> WriteOptions {
        WriteOptions {
            sync: self.sync || other.sync,
            dont_cache: self.dont_cache || other.dont_cache,
        }
    }
}

impl BitOrAssign for WriteOptions {
    ghost use Rattle.std.specs.Prelude.{◌≡◌};
    ghost use Rattle.rt_base.specs.Options.{united_write_options};

    ghost bitor_assign_gives = { λ a b both. both ≡ united_write_options a b };

    fn bitor_assign(&mut self, other: WriteOptions) {
        *self = *self | other;
    }
}
