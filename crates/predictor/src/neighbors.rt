// What stands around a pixel or byte that is predicted.
ghost use Rattle.std.specs.Prelude.{◌≡◌};

// L, T, TR and TL of the RFC's table of modes: the left, the top, the top-right and the top-left neighbor.
#[derive(Clone, Copy)]
pub struct Neighbors<T> {
    pub l: T,
    pub t: T,
    pub tr: T,
    pub tl: T,
}

impl<T> Neighbors<T> {
    // The part of each that `part` gives; inlined as the prediction that asks for it is.
    #[inline(always)]
    pub(crate) fn map<U, F: Fn(T) -> U>(self, part: F) -> Neighbors<U>
        requires { F.pre part self.l × F.pre part self.t × F.pre part self.tr × F.pre part self.tl }
        ensures { (f : T → U) → ((v : T) (u : U) → F.post part v u → u ≡ f v)
            → result ≡ record { l = f self.l; t = f self.t; tr = f self.tr; tl = f self.tl } }
    {
        Neighbors {
            l: part(self.l),
            t: part(self.t),
            tr: part(self.tr),
            tl: part(self.tl),
        }
    }
}
