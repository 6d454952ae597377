use crate::{ConfigurationFault, KeyFault, TextFault, options_of_text, read_configuration};
use given_options::{GivenOptions, SERVE_KEYS};
use inquiry_data::LibraryNumber;
use scsi_cdb::Profile;
use std::alloc::{AllocError, Global};
use std::test::Fail;
use std::{fs, process};

/// What is reported of a text, or nothing where it gives options.
fn told(alloc: Global, text: &[u8]) -> Result<String, AllocError> {
    match options_of_text(alloc, text) {
        Ok(_) => Ok(String::new(alloc)),
        Err(fault) => format!(in alloc; "{fault}"),
    }
}

/// A text with every option.
const WHOLE: &str = "drives = 2
slots = 16
portals = 1
volumes = 0
volume-size = \"1G\"
profile = \"hosts\"
library-id = \"1a2b3c4d\"
media = \"/m\"
new-library = true
wait-for-folder = 90
memory = \"4G\"
volumes-larger-than-memory = true
socket = \"/s\"
control = \"/c\"
metrics = \"127.0.0.1:9100\"
metrics-open = false
sessions = 3
workers = 5
iscsi = [\"127.0.0.1:3260\", \"[::1]:3260=a:1\"]
target-name = \"iqn.2026-11.a:b\"
any-host = true
multipath = true
chap = \"/c\"
chap-digests = \"sha256\"
no-authentication = false
spans = false
drain = true
keep-records = false
grace = 1
login-timeout = 2
idle-timeout = 0
write-timeout = 4
idle-ping = 5
log = true
[hosts]
\"iqn.2026-11.c:d\" = \"500000000000000a\"
";

#[test]
fn reads_every_option(rt: HostRuntime) -> Result<(), Fail> {
    let given: GivenOptions = options_of_text(rt.alloc(), WHOLE.as_bytes())?;
    assert_eq!(rt; given.library.drives, Some(2));
    assert_eq!(rt; given.library.slots, Some(16));
    assert_eq!(rt; given.library.import_exports, Some(1));
    assert_eq!(rt; given.library.volumes, Some(0));
    assert_eq!(rt; given.volume_size, Some(1_073_741_824));
    assert!(rt; matches!(given.profile.profile, Some(Profile::Hosts)));
    assert_eq!(rt;
        given.profile.library_number,
        Some(LibraryNumber {
            number: 0x1a2b_3c4d
        })
    );
    assert_eq!(rt; given.media.new_library, Some(true));
    assert_eq!(rt; given.media.wait, Some(90));
    assert_eq!(rt; given.media.memory, Some(4_294_967_296));
    assert_eq!(rt; given.media.volumes_larger_than_memory, Some(true));
    assert!(rt; given.place.control.is_some());
    assert!(rt; given.metrics.address.is_some());
    assert_eq!(rt; given.metrics.is_open, Some(false));
    assert_eq!(rt; given.place.sessions, Some(3));
    assert_eq!(rt; given.place.workers, Some(5));
    assert_eq!(rt; given.iscsi.any_host, Some(true));
    assert_eq!(rt; given.iscsi.no_authentication, Some(false));
    assert_eq!(rt; given.records.drain, Some(true));
    assert_eq!(rt; given.times.idle, Some(0));
    assert_eq!(rt; given.times.ping, Some(5));
    assert_eq!(rt; given.log, Some(true));
    match (&given.iscsi.portals, &given.iscsi.hosts) {
        (Some(portals), Some(hosts)) => {
            assert_eq!(rt; portals.len(), 2);
            assert_eq!(rt; hosts.len(), 1);
        }
        _ => assert!(rt; false, "no portals, or no hosts"),
    }
    Ok(())
}

#[test]
fn tells_lines_and_keys(rt: HostRuntime) -> Result<(), Fail> {
    let rows = [
        ("", ""),
        ("# nothing\n", ""),
        (
            "drives = 2\nslots 8\n",
            "line 2: key with no value, expected `=`",
        ),
        ("log = true\nlog = true\n", "line 2: duplicate key"),
        ("\n\ndrivers = 2\n", "line 3: no option is named drivers"),
        (
            "\u{feff}log = true\nx.y = 2\n",
            "line 2: no option is named x",
        ),
        ("log = true\n\n[x]\ny = 1\n", "line 3: no option is named x"),
        (
            "log = true\ndrives = 5\n",
            "line 2: drives: give a whole number from 1 to 4",
        ),
        (
            "# one\ndrives = \"2\"\n",
            "line 2: drives: give a whole number from 1 to 4",
        ),
        ("log = 1\n", "line 1: log: give true or false"),
        ("media = 1\n", "line 1: media: give a text in quotes"),
        (
            "iscsi = []\n",
            "line 1: iscsi: give an array of texts, such as [\"a\", \"b\"]",
        ),
        (
            "memory = \"4GB\"\n",
            "line 1: memory: not a memory size: give a number of bytes from 1M to 65536G, such as 4G: 4GB",
        ),
        (
            "profile = \"lto\"\n",
            "line 1: profile: not a profile: give spec or hosts: lto",
        ),
        (
            "\nlibrary-id = 12345678\n",
            "line 2: library-id: give a text in quotes",
        ),
        (
            "[hosts]\n\"iqn.2026-11.a:b\" = \"5\"\n",
            "line 1: hosts: not a SAS address after the name of a host: give its 16 hexadecimal digits: iqn.2026-11.a:b=5",
        ),
    ];
    for (text, wanted) in rows {
        assert_eq!(rt; told(rt.alloc(), text.as_bytes())?.as_str(), wanted);
    }
    assert_eq!(rt;
        told(rt.alloc(), b"drives = 2\n\xff")?.as_str(),
        "line 2: invalid UTF-8"
    );
    Ok(())
}

#[test]
fn each_key_is_read(rt: HostRuntime) -> Result<(), Fail> {
    for key in SERVE_KEYS {
        let name = key.text();
        let text = format!(in rt.alloc(); "{name} = [[1]]\n")?;
        let wanted = format!(in rt.alloc(); "line 1: {name}: give")?;
        let got = told(rt.alloc(), text.as_bytes())?;
        assert!(rt;
            got.as_str().starts_with(wanted.as_str()),
            "at {name}: {got}"
        );
    }
    Ok(())
}

#[test]
fn reads_files(rt: HostRuntime) -> Result<(), Fail> {
    let id = process::id(rt.process());
    let path = format!(in rt.alloc(); "/tmp/vtl-configuration-{id}.toml")?;
    let mut long = vec![in rt.alloc(); b'#'; 1_048_576]?;
    fs::write(&rt, path.as_str(), long.as_slice())?;
    assert!(rt; read_configuration(&rt, path.clone()?).is_ok());
    long.push(b'#')?;
    fs::write(&rt, path.as_str(), long.as_slice())?;
    let read = read_configuration(&rt, path.clone()?);
    assert!(rt; matches!(&read, Err(ConfigurationFault::TooLong(_))));
    fs::write(&rt, path.as_str(), "x = 1\n")?;
    let unknown = read_configuration(&rt, path.clone()?);
    assert!(rt;
        matches!(
            &unknown,
            Err(ConfigurationFault::Text(
                _,
                TextFault::Key {
                    line: 1,
                    fault: KeyFault::Unknown(_)
                }
            ))
        )
    );
    fs::remove_file(&rt, path.as_str())?;
    match read_configuration(&rt, path) {
        Err(fault) => assert_eq!(rt; fault.status(), 4),
        Ok(_) => assert!(rt; false, "a file that isn't there is read"),
    }
    Ok(())
}
