//! The versions: of the program, of the canonical text that it reads and writes, and of the toolchain by which it is proved and built:
//! scripts/build.py puts the line of `rt version` in the place of the third.

macro_rules! versions {
    ($told:ident) => {
        $told!("0.1", "2", "a toolchain that the build did not name")
    };
}

macro_rules! program {
    ($program:literal, $canonical:literal, $toolchain:literal) => {
        $program
    };
}

macro_rules! canonical {
    ($program:literal, $canonical:literal, $toolchain:literal) => {
        $canonical
    };
}

macro_rules! toolchain {
    ($program:literal, $canonical:literal, $toolchain:literal) => {
        $toolchain
    };
}

macro_rules! short {
    ($program:literal, $canonical:literal, $toolchain:literal) => {
        concat!($program, " (canonical text ", $canonical, ")")
    };
}

macro_rules! long {
    ($program:literal, $canonical:literal, $toolchain:literal) => {
        concat!(
            $program,
            " (canonical text ",
            $canonical,
            ")\nproved and built by ",
            $toolchain
        )
    };
}

/// The version of the program.
pub const PROGRAM_VERSION: &str = versions!(program);

/// That of the canonical text.
pub const CANONICAL_VERSION: &str = versions!(canonical);

/// The toolchain.
pub const TOOLCHAIN: &str = versions!(toolchain);

/// The versions of the program and of the canonical text, on one line.
pub const VERSION: &str = versions!(short);

/// The same with the toolchain, as `--version` tells it.
pub const VERSIONS: &str = versions!(long);
