// What `listing --version` prints. The version is also in include/direction.h and CHANGELOG.md, and the gate holds them to each other.
use std::rt::Env;

// Whether the first argument is --version. An argument of more than nine bytes is not read.
pub fn is_asked(rt: &impl Env) -> bool {
    let mut word = [0u8; 9];
    rt.arg(1, &mut word).is_ok() && &word == b"--version"
}

pub fn print(to: &(impl Print + Eprint)) {
    if to.write_all(b"listing 1.1.0\n").is_err() {
        let _ = to.eprintln("listing: the version could not be written");
    }
}
