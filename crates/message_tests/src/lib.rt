//! Tests of the writers and the places of messages, in a crate of their own so that the messages are not proved again with them.
#![tactic(auto)]

#[cfg(test)]
mod tests {
    use message::{Code, Commit, Place, Refusal, Reply, Submit, Text};
    use std::test::Fail;
    use version::Version;

    // In a group of two sites with signatures of 32 bytes, a commit has 138 bytes.
    #[test]
    fn commit_buffers(rt: HostRuntime) -> Result<(), Fail> {
        let Ok(version) = Version::zero(2) else {
            assert!(rt; false);
            return Ok(());
        };
        let commit = Commit {
            site: 1,
            version,
            commit_signature: &[7; 32],
            proof_signature: &[8; 32],
        };
        let mut short = [0xa5; 137];
        assert!(rt; commit.write(&mut short) == Err(Refusal::BufferTooShort));
        assert!(rt; short == [0xa5; 137]);
        let mut exact = [0xa5; 138];
        assert!(rt; commit.write(&mut exact) == Ok(138));
        assert!(rt; Commit::read(2, 32, &exact).is_ok());
        Ok(())
    }

    // A value of 512 bytes is written and reads back; one of 513 is refused.
    #[test]
    fn long_values(rt: HostRuntime) -> Result<(), Fail> {
        let bytes = [9; 513];
        let mut out = [0; 600];
        let long = Submit {
            site: 2,
            code: Code::Write,
            register: 2,
            timestamp: 1,
            submit_signature: &[1; 8],
            value: Some(&bytes),
            data_signature: &[2; 8],
        };
        assert!(rt; long.write(&mut out) == Err(Refusal::ValueTooLong));
        let submit = Submit {
            value: Some(&bytes[0..512]),
            ..long
        };
        assert!(rt; submit.write(&mut out) == Ok(538));
        match Submit::read(2, 8, &out[0..538]) {
            Ok(read) => {
                assert!(rt;
                    read.site == 2 && read.timestamp == 1 && read.data_signature == &out[530..538]
                );
                assert!(rt; read.value == Some(&bytes[0..512]));
                Ok(())
            },
            Err(_) => {
                assert!(rt; false);
                Ok(())
            },
        }
    }

    // The places of a submit's parts stay when the submit is let go and its bytes change.
    #[test]
    fn submit_places(rt: HostRuntime) -> Result<(), Fail> {
        let mut bytes = *b"\x01\x02\x02\x02\0\0\0\x05SUBM\0\x04valDATA";
        let Ok(submit) = Submit::read(2, 4, &bytes) else {
            assert!(rt; false);
            return Ok(());
        };
        let places = submit.places();
        bytes[0] = 0;
        assert!(rt; stands(Some(places.submit_signature), 8, b"SUBM", &bytes));
        assert!(rt; stands(places.value, 14, b"val", &bytes));
        assert!(rt; stands(Some(places.data_signature), 17, b"DATA", &bytes));
        Ok(())
    }

    // The same of a reply to a read, in a group of one site with signatures of two bytes, with one entry and a value of two bytes.
    #[test]
    fn reply_places(rt: HostRuntime) -> Result<(), Fail> {
        let mut bytes = [0; 97];
        bytes[..3].copy_from_slice(b"\x02\x01\x01");
        bytes[39..49].copy_from_slice(b"cc\x01\x01\x01\x01sspp");
        bytes[85..].copy_from_slice(b"ff\0\0\0\x07\0\x03vvdd");
        let Ok(reply) = Reply::read(1, 2, &bytes) else {
            assert!(rt; false);
            return Ok(());
        };
        let places = reply.places();
        bytes[0] = 0;
        assert!(rt; stands(Some(places.commit_signature), 39, b"cc", &bytes));
        assert!(rt; stands(Some(places.entries[0]), 45, b"ss", &bytes));
        assert!(rt; stands(Some(places.proofs), 47, b"pp", &bytes));
        let Some(found) = places.found else {
            assert!(rt; false);
            return Ok(());
        };
        assert!(rt; stands(Some(found.commit_signature), 85, b"ff", &bytes));
        assert!(rt; stands(found.value, 93, b"vv", &bytes));
        assert!(rt; stands(Some(found.data_signature), 95, b"dd", &bytes));
        Ok(())
    }

    // Whether the place is that of this part at this offset, and hands the part out.
    fn stands(place: Option<Place>, offset: usize, part: &[u8], bytes: &[u8]) -> bool {
        match place {
            Some(place) => {
                let length = part.len();
                place == Place { offset, length } && place.of(bytes) == part
            }
            None => false,
        }
    }

    #[test]
    fn strings(rt: HostRuntime) {
        let mut out = [0; 12];
        assert!(rt; Text::Submit(Code::Read, 3, 258).write(&mut out) == Ok(10));
        assert!(rt; out == *b"SUBM\x01\x03\0\0\x01\x02\0\0");
        assert!(rt; Text::Data(5, None).write(&mut out) == Ok(8));
        assert!(rt; out == *b"DATA\0\0\0\x05\x01\x02\0\0");
        assert!(rt; Text::Data(5, Some(&[1; 32])).write(&mut out) == Err(Refusal::BufferTooShort));
    }
}
