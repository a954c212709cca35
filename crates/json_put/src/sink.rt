// Where octets go, one behind the other: they are counted, or put into a buffer.
ghost use Rattle.std.specs.Prelude.{List, ℕ};
ghost use Rattle.base64url.specs.Base64url.{encoded};
ghost use Rattle.json_put.specs.Inner.Laws.{Laws};
ghost use Rattle.json_put.specs.Inner.Sinks.{Any, Counts, counts_laws, Holds, Fills, fills_laws};

pub(crate) trait Sink {
    // These octets may come.
    ghost fits: { Self → List ℕ → Type 0 };

    // These octets came between two moments.
    ghost gains: { Self → List ℕ → Self → Type 0 };

    ghost laws: { Laws fits gains };

    fn octets(&mut self, xs: &[u8])
        requires { fits self.old xs.now }
        ensures { gains self.old xs.now self.new };

    // Octets as base64url writes them.
    fn encoded(&mut self, octets: &[u8])
        requires { fits self.old (encoded octets.now) }
        ensures { gains self.old (encoded octets.now) self.new };
}

// How many octets came, or the largest number.
#[derive(Drop)]
pub(crate) struct Count {
    pub(crate) n: usize,
}

impl Sink for Count {
    ghost fits = { Any };

    ghost gains = { Counts };

    ghost laws = { counts_laws };

    fn octets(&mut self, xs: &[u8]) {
        self.n = self.n.saturating_add(xs.len());
    }

    fn encoded(&mut self, octets: &[u8]) {
        self.n = self
            .n
            .saturating_add(base64url::encoded_length(octets.len()));
    }
}

// A buffer, and where the next octet goes.
#[derive(Drop)]
pub(crate) struct Buffer<'a> {
    pub(crate) out: &'a mut [u8],
    pub(crate) at: usize,
}

impl<'a> Sink for Buffer<'a> {
    ghost fits = { Holds };

    ghost gains = { Fills };

    ghost laws = { fills_laws };

    fn octets(&mut self, xs: &[u8]) {
        prelude::copy_octets(xs, self.out, self.at);
        self.at += xs.len();
    }

    fn encoded(&mut self, octets: &[u8]) {
        self.at = base64url::encode_at(octets, self.out, self.at);
    }
}
