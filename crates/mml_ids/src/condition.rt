ghost use Rattle.std.specs.Prelude.{◌≡◌};
ghost use Rattle.mml_ids.specs.Gives.{need};

/// Returns `Ok(())` if the condition holds, else `Err(error)`. With `?`, the caller returns that error.
pub fn need<E: Copy>(condition: bool, error: E) -> Result<(), E>
    ensures { result ≡ need condition error }
{
    if condition { Ok(()) } else { Err(error) }
}
