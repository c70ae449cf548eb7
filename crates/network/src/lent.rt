// Memory that a user lends.
ghost use Rattle.std.specs.Prelude.{◌≡◌, length, replicate};

// Writes the value into each place. The library's `fill` asks for a `clone` that cannot fail, which a type that is `Copy`
// does not promise.
pub fn overwrite<T: Copy>(places: &mut [T], value: T)
    ensures { places.new ≡ replicate (length places.old) value }
{
    places.fill_with(|| value);
}
