// An edge: two vertices, the ends of a side.
ghost use Rattle.std.specs.Prelude.{◌≡◌};
ghost use Rattle.std.specs.Option.{option_map};

// The two ends of an edge, the lower first. Edges rise by their lower ends, and then by their higher ends.
#[derive(Clone, Copy, PartialEq, Eq, PartialOrd, Ord, Debug)]
pub struct Edge {
    pub low: u32,
    pub high: u32,
}

impl Edge {
    ghost use Rattle.edges.specs.Pairs.{pair_of, pair_between};

    // The edge of a side between two vertices, whichever way the side goes; none if they are one vertex.
    pub(crate) fn between(u: u32, v: u32) -> Option<Edge>
        ensures { option_map pair_of result ≡ pair_between u v }
    {
        (u != v).then(|| Edge {
            low: u.min(v),
            high: u.max(v),
        })
    }
}
