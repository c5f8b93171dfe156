//! Configurations with texts of the greatest length, lines that are filled, and lists of sites.
ghost use Rattle.ts_config.specs.Reading.{ComeFromText};
ghost use Rattle.ts_config.specs.Setup.{lines_of};

use std::alloc::Global;
use std::process::Abort;
use ts_config::{
    ConfigKind, ConfigRefusal, Setup, Sites, TransformLine, print_config, read_config,
};
use ts_link::Octets;

/// Why a test has no outcome.
const MEMORY: &str = "memory lacks";

/// What is printed of the lines.
fn printed(rt: &impl Abort, alloc: Global, setup: &Setup) -> Octets
    requires { ComeFromText (lines_of setup.now) }
{
    print_config(alloc, setup).expect(rt, MEMORY)
}

/// Whether a configuration is printed as it stands.
fn prints_itself(rt: &impl Abort, alloc: Global, text: &[u8]) -> bool {
    match read_config(alloc, text) {
        Ok(setup) => printed(rt, alloc, &setup).bytes() == text,
        Err(_) => false,
    }
}

/// Whether the first line of a configuration is refused for its arguments.
fn has_wrong_arguments(alloc: Global, text: &[u8]) -> bool {
    match read_config(alloc, text) {
        Ok(_) => false,
        Err(ConfigRefusal::Fault(fault)) => {
            fault.line == 1 && matches!(fault.kind, ConfigKind::Arguments)
        }
        Err(ConfigRefusal::NoMemory) => false,
    }
}

/// A line with a text of so many bytes at its end.
fn long_line(rt: &(impl AllocGlobal + Abort), front: &[u8], len: usize) -> Vec<u8> {
    let text = vec![in rt.alloc(); b'b'; len].expect(rt, MEMORY);
    let mut line = Vec::from_slice(rt.alloc(), front).expect(rt, MEMORY);
    line.extend_from_slice(text.as_slice()).expect(rt, MEMORY);
    line.push(b'\n').expect(rt, MEMORY);
    line
}

#[test]
fn texts_of_the_greatest_length(rt: HostRuntime) {
    for front in [b"prepend.so ".as_slice(), b"header.so request set a "] {
        let most = long_line(&rt, front, 16_384);
        assert!(rt; prints_itself(&rt, rt.alloc(), most.as_slice()));
        let longer = long_line(&rt, front, 16_385);
        assert!(rt; has_wrong_arguments(rt.alloc(), longer.as_slice()));
    }
}

/// The lines, and where the second one is an append, with this text of its file.
fn filled(mut setup: Setup, text: Octets) -> Setup
    requires { ComeFromText (lines_of setup) }
    ensures { ComeFromText (lines_of result) }
{
    if let Some(TransformLine::Append { .. }) = setup.transforms.get(1) {
        setup.fill(1, text);
        return setup;
    }
    setup
}

/// The file and the text of the second line, where that is an append.
fn append_of(setup: &Setup) -> (&[u8], &[u8]) {
    match setup.transforms.get(1) {
        Some(TransformLine::Append { file, text }) => (file.bytes(), text.bytes()),
        _ => (b"", b""),
    }
}

#[test]
fn fills_lines(rt: HostRuntime) {
    let text = Octets::copy_of(rt.alloc(), b"XY").expect(&rt, MEMORY);
    let lines = b"null_transform.so\nappend_transform.so f\n";
    let Ok(read) = read_config(rt.alloc(), lines) else {
        panic!(rt; "two lines")
    };
    let setup = filled(read, text);
    assert_eq!(rt; append_of(&setup), (b"f".as_slice(), b"XY".as_slice()));
    assert_eq!(rt; printed(&rt, rt.alloc(), &setup).bytes(), lines.as_slice());
}

#[test]
fn lists_sites(rt: HostRuntime) {
    let site = Octets::copy_of(rt.alloc(), b"a.example").expect(&rt, MEMORY);
    let listed = Vec::from_array(rt.alloc(), [site]).expect(&rt, MEMORY);
    let sites = Sites::of_vec(listed);
    assert_eq!(rt; sites.site(0), Some(b"a.example".as_slice()));
    assert_eq!(rt; (sites.site(1).is_none(), sites.sites().len()), (true, 1));
}
