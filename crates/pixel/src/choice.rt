// One of two values.
ghost use Rattle.std.specs.Prelude.{◌≡◌, if◌then◌else◌};

// A function, since in place the compiler makes a branch of it, and loops that choose take longer.
pub fn pick<T: Copy>(first: bool, a: T, b: T) -> T
    ensures { result ≡ (if first then a else b) }
{
    if first { a } else { b }
}
