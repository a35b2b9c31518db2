//! What a put stores. The payloads and the digests are of the objects that bench/plain.py makes; those of a second and a
//! third version are made with its functions, by the generation and the slots of docs/FORMATS.md.

use nc_stage::play;
use std::test::Fail;

#[test]
fn eight_bytes_on_four_clouds(rt: HostRuntime) -> Result<(), Fail> {
    play(
        &rt,
        r#"
        # eight bytes on four clouds
        clouds 4
        put a < "abcdefgh" -> 0 Ok = generation:1
        objects 12
        payloads c-61-0-0 442a 8bdc d47e 8f39
        payloads c-61-0-1 c758 d759 8521 a7fd
        digest 0 c-61-0-0 8624203f556ac21a7b9a170a52d439d414be10314800cba6453a291fd82897ca
        digest 1 c-61-0-0 7f5b3f66d1141dc503a9274dd7fc970e61b9b31d69805825ac223d74abddae88
        digest 2 c-61-0-0 c36f3f3f19ed01a550b8047a3f2db5f27a93ba5a724c5ac70cab556c41cd30a0
        digest 3 c-61-0-0 a35c5b120cc5c016f5078ee30c85eb999eb76733e3f1324bab5a00d02f1be7c7
        digest 0 c-61-0-1 13d1ed4ed060bac50431314885f05764d9ddd10f204e9aee1c49d7325dd7edc9
        digest 1 c-61-0-1 4fd912d14a6fabf0359b01771954c8e0bd0531bd0394c0fb83804edcf783eebe
        digest 2 c-61-0-1 7236d0fb2aba046ea6cd7f83ed55c88793d42636b2b7c8012e675c0e3e173fe7
        digest 3 c-61-0-1 f47b3aacf99a7b307e8d386b6d009b1c739c6d6f256511136d9a93b0e5898649
        digest 0 m-61-1 39ecaf2cc212a022d9449e7a19480a7be9782216d661aa71bbf908ad0c116f87
        digest 1 m-61-1 fb5a7d01e10e42f4f7fa812acf4d87ae17558e7833b46c26b4237ce6ba92e3af
        digest 2 m-61-1 aa43060398d2d20e3ea7f8ab5100002074aa07afd252d31b2e34e0108ed25ac4
        digest 3 m-61-1 c7495962d1321312faf881f8c8a3ca4ad6c27ab09f8bd214f730b40e1b540834

        # an input that gives a byte a call
        clouds 4
        reads up to 1
        put a < "abcdefgh" -> 0 Ok = generation:1
        objects 12
        payloads c-61-0-0 442a 8bdc d47e 8f39
        payloads c-61-0-1 c758 d759 8521 a7fd
        "#,
    )
}

#[test]
fn three_bytes_over_eight_and_one_over_three(rt: HostRuntime) -> Result<(), Fail> {
    play(
        &rt,
        r#"
        # three bytes over eight, of which nothing is left
        clouds 4
        put a < "abcdefgh" -> 0 Ok = generation:1
        put a < "abc" -> 0 Ok = generation:2
        objects 12
        payloads c-61-1-0 c8 60 98 18
        payloads c-61-1-1 e6 de ed 83
        digest 0 m-61-0 6d3e8c8540a0349b2fb48f5b9d790de2e51f144905e01023cea80f9079e61b19
        digest 1 m-61-0 a6b8a691d5a7565b290dc42fed9364df34a4244934314b33bcbeb2c1fccb9491
        digest 2 m-61-0 651b4256bf899a0f58ec2d0c9c6a8101f179bbf3065f6840b798cf8e81e59d89
        digest 3 m-61-0 ced2a29d79ad5ebabb5d45322864252124fda92c9436aff83b51d505aba6b30b

        # one byte over these three, in the places of the eight
        put a < "x" -> 0 Ok = generation:3
        objects 12
        payloads c-61-0-0 60 c4 ff 82
        payloads c-61-0-1 50 71 c0 a8
        digest 0 m-61-1 474542760310752060803a8e36898dd15818a962f04367f4723b56973d2b20cd
        digest 1 m-61-1 4592af609588cc18ba12c7d9ed51c0e5f0385f0adcc4e4d26c84908de0a9fac9
        digest 2 m-61-1 02aca0da68ae9d2f6c82e7a9b2ac824fe741bed253458c59a0df7ebfc0917390
        digest 3 m-61-1 7ca9d711bb723657055b20b92178f258388276447d52726b38b8f2552b0ad33e
        "#,
    )
}

#[test]
fn no_byte_on_four_clouds_and_one_on_ten(rt: HostRuntime) -> Result<(), Fail> {
    play(
        &rt,
        r#"
        # the empty file has empty chunks, marked with the digest of no bytes
        clouds 4
        put a -> 0 Ok = generation:1
        get a -> 0 Ok
        objects 12
        payloads c-61-0-0 "" "" "" ""
        payloads c-61-0-1 "" "" "" ""
        digest 0 c-61-0-1 41ecd44583cef993fdd9f520c9f07eb92b958a4ded16f214b237ca9d089eb5cf
        digest 1 c-61-0-1 ce03bd94291e4ed87f3d8046e3fb55e59615ff2d4d06c1e19b1a2502ffad6df4
        digest 2 c-61-0-1 1d3b45990eb78a544a4913c673b24504f7ede366c86b16c0fa0a6c282ec2b219
        digest 3 c-61-0-1 93ea417193e83f9f7f2718df850e32b380be0f4c8e58faec028b4e7df974ff3a
        digest 0 m-61-1 fc82341fe49ed7fb403a836eecce07419c5655986a94feace0b60f8fe62f3b4c
        digest 1 m-61-1 fb82abc947b8f96394f1cc54cea78292cbbf7b444377086971583f24c21f4f5d
        digest 2 m-61-1 6d2b2d92f8bb1cef0d0892982ae6c47ee722e5bc3c50585cde1e517086e8dd71
        digest 3 m-61-1 5e92d800a6f1a04494a448a298a7b09e2cb458cf01ef7b4cce77a18304978bb5
        part m-61-1 79 e3b0c44298fc1c149afbf4c8996fb92427ae41e4649b934ca495991b7852b855 e3b0c44298fc1c149afbf4c8996fb92427ae41e4649b934ca495991b7852b855 e3b0c44298fc1c149afbf4c8996fb92427ae41e4649b934ca495991b7852b855 e3b0c44298fc1c149afbf4c8996fb92427ae41e4649b934ca495991b7852b855 e3b0c44298fc1c149afbf4c8996fb92427ae41e4649b934ca495991b7852b855 e3b0c44298fc1c149afbf4c8996fb92427ae41e4649b934ca495991b7852b855 e3b0c44298fc1c149afbf4c8996fb92427ae41e4649b934ca495991b7852b855 e3b0c44298fc1c149afbf4c8996fb92427ae41e4649b934ca495991b7852b855

        # one byte on ten clouds: each payload is the first entry of its row times 5A
        clouds 10
        put Z < 5a -> 0 Ok = generation:1
        objects 30
        payloads c-5a-0-0 ff 90 35 de d4 69 ca ac 62 bd
        payloads c-5a-0-1 40 18 32 1b f4 84 28 09 20 a4
        digest 0 m-5a-1 fbafda0a68bde81ccdc8f4d6fa298c94f441e6e7676f75ba985abfcf90e54afe
        digest 1 m-5a-1 d047831c6bb5eec0d90ed453e8d456d1cea36096ab0ca54b24529fa98c08507d
        digest 2 m-5a-1 04e2a7ae1bfab2ad734facfb2df5ea675ff33d2fbb97274c2073e3059cd479f5
        digest 3 m-5a-1 802329ab8085f19a291a0d31355f0f6ad267e1cf29690fe63c400291b44ade05
        digest 4 m-5a-1 47c413a4c208b10e1c60fd07ba89d3022c15732620c6e106358af355a9ce780d
        digest 5 m-5a-1 d033d7bbe485e845b733075a3c78b7248e9add497f137f98b633ead6e1631a49
        digest 6 m-5a-1 ee9d63c81861e5f081a5f8c625c4fac0a86af71b14f799e3c775148e9c80fd5d
        digest 7 m-5a-1 61fd1c36b4248a48fbf62c610bab86e3e6674d92fb6418a0f989bfa2d835cebd
        digest 8 m-5a-1 5f044ca5a7af5194a25e68e27756a28c78b22f0de8749795c3827d71c31ebbf6
        digest 9 m-5a-1 d9bcb9f0a71448bc04cede28e907fa6e3be3668056ede9e87875a9003ccfd5f6
        get Z -> 0 Ok = 5a
        "#,
    )
}
