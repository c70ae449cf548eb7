// Checks of sizes and of the memory lent for them, whatever layer refuses.
ghost use Rattle.network.specs.Sizes.{over, short, checked};
ghost use Rattle.std.specs.Prelude.{◌≡◌, ℕ};

use crate::fault::NetworkFault;

// A fault that can be about a size, or about the memory lent for one.
pub trait SizeFault: Copy {
    ghost large: { ℕ → Self };

    ghost small: { ℕ → Self };

    // The fault of a size that is over its largest: that size.
    fn too_large(size: u32) -> Self
        ensures { result ≡ large size };

    // The fault of a memory that is too short for its size: the memory's length.
    fn too_short(length: u32) -> Self
        ensures { result ≡ small length };
}

impl SizeFault for NetworkFault {
    ghost use Rattle.network.specs.declared.fault.NetworkFault.TheVariants.{TooLarge, TooShort};

    ghost large = { TooLarge };

    ghost small = { TooShort };

    fn too_large(size: u32) -> NetworkFault {
        NetworkFault::TooLarge(size)
    }

    fn too_short(length: u32) -> NetworkFault {
        NetworkFault::TooShort(length)
    }
}

// Refuses a size that is over its largest.
pub fn check_size<F: SizeFault>(size: u32, largest: u32) -> Result<(), F>
    ensures { result ≡ checked (over F.large largest size) }
{
    if size > largest {
        return Err(F::too_large(size));
    }
    Ok(())
}

// Refuses a memory that is too short for its size.
pub fn check_memory<F: SizeFault>(length: usize, size: u32) -> Result<(), F>
    ensures { result ≡ checked (short F.small length size) }
{
    if length < size as usize {
        return Err(F::too_short(length as u32));
    }
    Ok(())
}
