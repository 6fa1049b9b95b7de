// The figures of annex D of source document 002 after the rows of table D.1, section after section.

// A figure stands as its digits, without the decimal sign. The scale is 1000 for three decimals, and the step is how many of the value's
// unit make one in the last digit.
#[derive(Clone, Copy)]
pub struct Figure {
    pub digits: u32,
    pub scale: u64,
    pub step: u64,
}

pub const FIGURES: [Figure; 29] = [
    Figure {
        digits: 10000,
        scale: 10000,
        step: 100,
    },
    Figure {
        digits: 17478,
        scale: 1000,
        step: 10000000,
    },
    Figure {
        digits: 91909,
        scale: 100,
        step: 10000000,
    },
    Figure {
        digits: 4785,
        scale: 100000,
        step: 100000,
    },
    Figure {
        digits: 91909,
        scale: 100,
        step: 10000000,
    },
    Figure {
        digits: 52586,
        scale: 1000,
        step: 100,
    },
    Figure {
        digits: 5259,
        scale: 100,
        step: 1000,
    },
    Figure {
        digits: 5259,
        scale: 100,
        step: 10000000000,
    },
    Figure {
        digits: 38870,
        scale: 1000,
        step: 1000,
    },
    Figure {
        digits: 3887,
        scale: 100,
        step: 10000,
    },
    Figure {
        digits: 3887,
        scale: 100,
        step: 10000000000,
    },
    Figure {
        digits: 4785,
        scale: 100000,
        step: 100000,
    },
    Figure {
        digits: 99771,
        scale: 100000,
        step: 10000,
    },
    Figure {
        digits: 9977,
        scale: 10000,
        step: 100000,
    },
    Figure {
        digits: 38959,
        scale: 1000,
        step: 1000,
    },
    Figure {
        digits: 3896,
        scale: 100,
        step: 10000,
    },
    Figure {
        digits: 60347,
        scale: 100000,
        step: 1000,
    },
    Figure {
        digits: 6035,
        scale: 10000,
        step: 10000,
    },
    Figure {
        digits: 60460,
        scale: 100000,
        step: 1000,
    },
    Figure {
        digits: 6046,
        scale: 10000,
        step: 10000,
    },
    Figure {
        digits: 73918,
        scale: 100000,
        step: 1000,
    },
    Figure {
        digits: 7392,
        scale: 10000,
        step: 10000,
    },
    Figure {
        digits: 74088,
        scale: 100000,
        step: 1000,
    },
    Figure {
        digits: 7409,
        scale: 10000,
        step: 10000,
    },
    Figure {
        digits: 50036,
        scale: 1000,
        step: 1000,
    },
    Figure {
        digits: 5004,
        scale: 100,
        step: 10000,
    },
    Figure {
        digits: 50104,
        scale: 1000,
        step: 1000,
    },
    Figure {
        digits: 5010,
        scale: 100,
        step: 10000,
    },
    Figure {
        digits: 5011,
        scale: 100,
        step: 10000,
    },
];

// Their names, apart from the numbers: no proof names a constant in which text stands.
pub const NAMES: [&str; 29] = [
    "table D.1, total x",
    "table D.1, total x M",
    "table D.1, total x H",
    "table D.1, total x s",
    "D.1, ideal H per mole",
    "D.2, ideal H per kilogram",
    "D.2, ideal H per kilogram",
    "D.2, by formula (7)",
    "D.3, ideal H",
    "D.3, ideal H",
    "D.3, by formula (9)",
    "D.3, sum of x s",
    "D.3, Z",
    "D.3, Z",
    "D.3, H",
    "D.3, H",
    "D.4.1, ideal d",
    "D.4.1, ideal d",
    "D.4.1, d",
    "D.4.1, d",
    "D.4.2, ideal rho",
    "D.4.2, ideal rho",
    "D.4.2, rho",
    "D.4.2, rho",
    "D.4.3, ideal W",
    "D.4.3, ideal W",
    "D.4.3, W",
    "D.4.3, W",
    "D.4.3, W with all digits",
];
