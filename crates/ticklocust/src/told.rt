// How an answer crosses to C: a number is returned, 0 or the refusal's, and a value is written only where the call is accepted.
// The four functions that write several values match by themselves: a closure that wrote through their references was tried in `ticklocust_centre`; it was
// no shorter, and its proof had both cases of `map` to tell apart.
ghost use Rattle.std.specs.Prelude.{◌≡◌};
ghost use Rattle.refusal.specs.Refusal.{said, said_done};
ghost use Rattle.c_values.specs.Values.{told, status};

use refusal::Refusal;

// Writes an accepted call's value through a reference.
pub(crate) fn tell<T: Copy>(answer: Result<T, Refusal>, to: &mut T) -> u32
    ensures { (result, to.new) ≡ told (said answer) to.old }
{
    match answer {
        Ok(value) => {
            *to = value;
            0
        }
        Err(refusal) => refusal as u32,
    }
}

// The same of a call that has no value to give beyond its work.
pub(crate) fn status(answer: Result<(), Refusal>) -> u32
    ensures { result ≡ status (said_done answer) }
{
    match answer {
        Ok(()) => 0,
        Err(refusal) => refusal as u32,
    }
}
