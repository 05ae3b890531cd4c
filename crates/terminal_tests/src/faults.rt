//! The numbers and the names of faults, and the text of one that no program tells.
use bus_profile::{Key, Part};
use rt1553::{CanonFault, EngineFault, LoadFault, ProfileFault, RunFault};
use std::test::Fail;

#[test]
fn faults_of_profiles(rt: HostRuntime) -> Result<(), Fail> {
    let (part, key) = (Part::Root, Key::Address);
    for (fault, number, name) in [
        (ProfileFault::NotToml, 1, "NotToml"),
        (ProfileFault::UnknownKey(part), 2, "UnknownKey"),
        (ProfileFault::Missing(part, key), 3, "Missing"),
        (ProfileFault::WrongKind(part, key), 4, "WrongKind"),
        (ProfileFault::OutOfRange(part, key), 5, "OutOfRange"),
        (ProfileFault::BadRanges(part, key), 6, "BadRanges"),
        (ProfileFault::TooMany(part, key), 7, "TooMany"),
        (ProfileFault::RequiredCode(2), 8, "RequiredCode"),
        (ProfileFault::Memory, 9, "Memory"),
    ] {
        assert!(rt; fault.number() == number && fault.name() == name, "{name}");
    }
    let memory = format!(in rt.alloc(); "{}", ProfileFault::Memory)?;
    assert_eq!(rt; memory.as_str(), "out of memory");
    Ok(())
}

#[test]
fn faults_of_canonical_texts(rt: HostRuntime) {
    for (fault, number, name) in [
        (CanonFault::Line(65), 1u8, "Line"),
        (CanonFault::Trailing, 2, "Trailing"),
    ] {
        assert!(rt; fault.number() == number && fault.name() == name, "{name}");
    }
}

#[test]
fn faults_of_runs(rt: HostRuntime) {
    for (fault, number, name) in [
        (RunFault::Line(7), 1u8, "Line"),
        (RunFault::LongLine(7), 2, "LongLine"),
        (RunFault::TooLong, 3, "TooLong"),
        (RunFault::Read, 4, "Read"),
        (RunFault::Write, 5, "Write"),
    ] {
        assert!(rt; fault.number() == number && fault.name() == name, "{name}");
    }
}

#[test]
fn faults_of_the_engine(rt: HostRuntime) {
    for (fault, number, name) in [
        (LoadFault::Profile(ProfileFault::NotToml), 1u8, "Profile"),
        (LoadFault::Canon(CanonFault::Trailing), 2, "Canon"),
        (LoadFault::Memory, 3, "Memory"),
    ] {
        assert!(rt; fault.number() == number && fault.name() == name, "{name}");
        let engine = EngineFault::Load(fault);
        assert!(rt; engine.number() == 1 && engine.name() == "Load", "{name}");
    }
    let script = EngineFault::Script(RunFault::TooLong);
    assert!(rt; script.number() == 2 && script.name() == "Script");
}
