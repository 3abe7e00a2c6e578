// Places at which tasks wait.
ghost use Rattle.std.specs.Prelude.{◌≡◌, Bool, All};
ghost use Rattle.std.specs.List.{list_any};

/// A place at which tasks may wait, though none for what is there.
pub trait Waited {
    ghost waited: { Self → Bool };

    ghost quiet: { Self → Type 0 };

    /// Returns whether a task waits at this place.
    fn anyone_waits(&self) -> bool
        ensures answer { result ≡ waited self.now }
        ensures quiet { quiet self.now };
}

/// Returns whether a task waits at any of these places. No task waits for what is there already.
pub fn anyone_waits_at<W: Waited>(places: &Vec<W>) -> bool
    ensures answer { result ≡ list_any W.waited places.now.items }
    ensures quiet { All W.quiet places.now.items }
{
    let mut found = false;
    for index in 0..places.len() {
        found |= places[index].anyone_waits();
    }
    found
}
