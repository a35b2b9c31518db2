//! Long files, and the mill, which makes one.

use nc_stage::play;
use std::test::Fail;

#[test]
fn long_files_come_back(rt: HostRuntime) -> Result<(), Fail> {
    play(
        &rt,
        r#"
        # the longest file, and no longer one
        clouds 4
        put a < zeros:67108865 -> 7 the input is longer than 67108864 bytes
        rounds of
        batch < zeros:67108865 -> 7 the input is longer than 67108864 bytes
        rounds of
        put a < zeros:67108864 -> 0 Ok = generation:1
        objects 12
        size 3 c-61-0-1 16777272

        # a repair reads three chunks of 750,000 bytes, and the file comes back without two other clouds
        clouds 4
        put p < mixed:3000000 -> 0 Ok = generation:1
        size 2 c-70-0-0 750056
        lose 2
        repair 2 -> 0 Ok = "repaired·1¶"
        gets of chunks 1 1 0 1
        size 2 c-70-1-0 750056
        lose 0
        lose 3
        get p -> 0 Ok = mixed:3000000

        # a long file comes back from 4 clouds and without two
        clouds 4
        put a < mixed:100003 -> 0 Ok = generation:1
        get a -> 0 Ok = mixed:100003
        lose 0
        lose 1
        get a -> 0 Ok = mixed:100003

        # a long file comes back from 7 clouds and without two
        clouds 7
        put a < mixed:100003 -> 0 Ok = generation:1
        get a -> 0 Ok = mixed:100003
        lose 2
        lose 5
        get a -> 0 Ok = mixed:100003

        # a long file comes back from 10 clouds and without two
        clouds 10
        put a < mixed:100003 -> 0 Ok = generation:1
        get a -> 0 Ok = mixed:100003
        lose 3
        lose 9
        get a -> 0 Ok = mixed:100003
        "#,
    )
}

#[test]
fn a_mill_asks_nothing_of_the_clouds(rt: HostRuntime) -> Result<(), Fail> {
    play(
        &rt,
        r#"
        # the digest is that of the 8 MiB that other programs make: sha256sum of the stream by openssl
        clouds 4
        put a < "abcdefgh" -> 0 Ok = generation:1
        mill 7 -> 0 Ok = "mill·7·width·4·lost·3·fetched·3·sha256·906370280ed60a88d055a5a5fda411cff230bfa878f38c78c77f85635b0369b5¶"
        rounds of
        unchanged

        # by the seed 5 the first candidate for its file isn't good, by bench/plain.py
        mill 7 --budget 1 --seed 0000000000000000000000000000000000000000000000000000000000000005 -> 6 none of 1 candidates is good
        writes up to 1
        write 3 fails
        mill 7 -> 9 the output failed = "mi"
        "#,
    )
}
