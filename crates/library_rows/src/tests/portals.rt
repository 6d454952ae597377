//! Portals as a command line says them.
use super::assert_list;
use program_options::portal_of;

#[test]
fn a_portal_keeps_what_is_told(rt: HostRuntime) {
    let text = "127.0.0.1:3260=tapes.example:3261";
    let portal = portal_of(text, false)
        .expect(&rt, "a portal")
        .to_portal(rt.alloc())
        .expect(&rt, "memory");
    let told = match &portal.told {
        Some(told) => told.as_bytes(),
        None => &[],
    };
    assert_list(&rt, told, b"tapes.example:3261", "what is told");
}
