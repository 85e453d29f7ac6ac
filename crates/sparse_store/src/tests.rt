//! Metadata texts, whole and gone wrong, and the texts that are written.
use crate::{BadMeta, META_ROOM, MOST_META_NUMBER, Meta, read_meta, write_meta};

const WHOLE: &[u8] = b"umap-sparse 1\nsize 512\nfile 128\n";

fn at(byte: u32) -> Result<Meta, BadMeta> {
    Err(BadMeta { byte })
}

#[test]
fn texts_are_read_or_refused_at_a_byte(rt: HostRuntime) {
    assert!(rt;
        read_meta(WHOLE)
            == Ok(Meta {
                size: 512,
                file: 128
            })
    );
    assert!(rt;
        read_meta(b"umap-sparse 1\nsize 9999999999999\nfile 1\n")
            == Ok(Meta {
                size: 9999999999999,
                file: 1
            })
    );
    assert!(rt; read_meta(b"") == at(0));
    assert!(rt; read_meta(b"umap-sparse 2\n") == at(12));
    assert!(rt; read_meta(b"umap-sparse 1\nsize 0512\nfile 128\n") == at(19));
    assert!(rt; read_meta(b"umap-sparse 1\nsize \nfile 128\n") == at(19));
    assert!(rt; read_meta(b"umap-sparse 1\nsize 512\r\nfile 128\n") == at(22));
    assert!(rt; read_meta(b"umap-sparse 1\nsize 10000000000000\nfile 1\n") == at(32));
    assert!(rt; read_meta(b"umap-sparse 1\nsize 512\nfile 128") == at(31));
    assert!(rt; read_meta(b"umap-sparse 1\nsize 512\nfile 128\n\n") == at(32));
}

#[test]
fn each_front_of_a_text_goes_wrong_at_its_end(rt: HostRuntime) {
    for length in 0..WHOLE.len() {
        assert!(rt; read_meta(&WHOLE[..length]) == at(length as u32));
    }
}

#[test]
fn the_longest_text_fills_its_room(rt: HostRuntime) {
    let mut out = [b'-'; META_ROOM];
    let most = Meta {
        size: MOST_META_NUMBER,
        file: MOST_META_NUMBER,
    };
    assert!(rt; write_meta(most, &mut out) == META_ROOM);
    assert!(rt; read_meta(&out) == Ok(most));
    let end = write_meta(
        Meta {
            size: 512,
            file: 128,
        },
        &mut out,
    );
    assert!(rt; end == 32 && &out[..32] == WHOLE);
    assert!(rt; &out[32..34] == b"\nf".as_slice());
}
