ghost use Rattle.std.specs.Prelude.{◌≡◌, ◌<◌, ◌%◌, length, slice_get, Some};
ghost use Rattle.search_machine.specs.Runs.{drawn, next_number};

/// The next pseudorandom number after this one.
pub(crate) fn number_after(number: u64) -> u64
    ensures { result ≡ next_number number }
{
    number
        .wrapping_mul(6364136223846793005)
        .wrapping_add(1442695040888963407)
}

/// The place that the number selects.
pub(crate) fn pick(places: &[u32], number: u64) -> u32
    requires { 0 < length places.now }
    ensures { slice_get places.now (drawn number % length places.now) ≡ Some result }
{
    let draw = (number >> 33) as usize;
    places[draw % places.len()]
}
