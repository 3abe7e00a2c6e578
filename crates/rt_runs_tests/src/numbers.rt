//! The numbers of those who run, for tests.

ghost use Rattle.std.specs.Prelude.{◌≡◌, ◌<◌, vec_len, vec_capacity};
ghost use Rattle.rt_model.specs.Lists.{has_number, with_number, without_number};
ghost use Rattle.rt_model.specs.Causes.{ends_next};

/// Whether the number is in the list.
#[tactic(auto, using(rt_machine::proofs::Replays::number_laws))]
pub fn has_number(numbers: &[u64], number: u64) -> bool
    ensures { result ≡ has_number number numbers.now }
{
    numbers.contains(&number)
}

/// Puts a number in its place in a sorted list, which has room for it.
pub fn add_number(numbers: &mut Vec<u64>, number: u64)
    requires { vec_len numbers.old < vec_capacity numbers.old }
    ensures { numbers.new.items ≡ with_number number numbers.old.items }
{
    let mut index = 0;
    while index < numbers.len() && numbers[index] <= number {
        index += 1;
    }
    match numbers.insert(index, number) {
        Ok(()) => {}
        Err(_) => unreachable!(),
    }
}

/// Takes the first occurrence of a number out, if there is one.
pub fn remove_number(numbers: &mut Vec<u64>, number: u64)
    ensures { numbers.new.items ≡ without_number number numbers.old.items }
{
    let mut index = 0;
    while index < numbers.len() && numbers[index] != number {
        index += 1;
    }
    if index < numbers.len() {
        numbers.remove(index);
    }
}

/// The task that a cleanup ends next: the first of those that run, the root last.
pub fn ends_next(running: &[u64], root: Option<u64>) -> Option<u64>
    ensures { result ≡ ends_next running.now root }
{
    let mut last = None;
    let mut rest = running;
    while let Some((first, tail)) = rest.split_first() {
        if root != Some(*first) {
            return Some(*first);
        }
        last = Some(*first);
        rest = tail;
    }
    last
}
