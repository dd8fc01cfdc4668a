//! What saves programs a line: attributes, observations, moments and seeds ready to use, and how they print.

use super::{assert_prints, assert_shows, list_of, string_value};
use otel_common::attributes::{Array, KeyValue, Value};
use otel_common::keys::Key;
use otel_common::lists::Items;
use otel_common::outside::{now_nanos, random_seed};
use otel_stream::observation::Observation;
use std::io;
use std::random::RandomSource;
use std::time::{Clock, Duration};

/// Keys, values of each kind and attributes print as they are; arrays between brackets.
#[test]
fn keys_values_and_arrays(rt: HostRuntime) {
    let rt = &rt;
    let alloc = rt.alloc();
    let text = string_value(rt, alloc, "a b");
    let key = Key::new(alloc, "k").expect(rt, "memory");
    let flags = Array::Bool(Items::from(list_of(rt, alloc, [true, false])));
    let texts = [
        text.clone().expect(rt, "memory"),
        string_value(rt, alloc, "c"),
    ];
    let texts = Array::String(Items::from(list_of(rt, alloc, texts)));
    let numbers = Array::I64(Items::from(list_of(rt, alloc, [7, -8, 9])));
    let none = Array::Bool(Items::from(Vec::new(alloc)));
    let arrays = format_args!("{text} {key} {flags} {texts} {numbers} {none}");
    assert_prints(rt, alloc, &arrays, "a b k [true,false] [a b,c] [7,-8,9] []");
    let flag = Value::Bool(false);
    let number = Value::I64(-7);
    let text = Value::String(text);
    let texts = Value::Array(texts);
    let flags = KeyValue::new(key, Value::Array(flags));
    let values = format_args!("{flag} {number} {text} {texts} {flags}");
    assert_prints(rt, alloc, &values, "false -7 a b [a b,c] k=[true,false]");
}

/// Attributes of each kind print their keys and their values. Observations have their values and their attributes.
#[test]
fn attributes_and_observations(rt: HostRuntime) {
    let rt = &rt;
    let alloc = rt.alloc();
    let path = KeyValue::text(alloc, "path", "/cart").expect(rt, "memory");
    let number = KeyValue::int(alloc, "n", -7).expect(rt, "memory");
    let flag = KeyValue::bool(alloc, "ok", true).expect(rt, "memory");
    let numbers = Value::Array(Array::I64(Items::from(list_of(rt, alloc, [1, -2]))));
    let list = KeyValue::new(Key::new(alloc, "l").expect(rt, "memory"), numbers);
    let attributes = format_args!("{path} {number} {flag} {list}");
    assert_prints(rt, alloc, &attributes, "path=/cart n=-7 ok=true l=[1,-2]");
    let seven = Observation::with_attributes(7u64, list_of(rt, alloc, [flag]));
    let eight = Observation::new(alloc, 8u64);
    let parts = (
        seven.value,
        seven.attributes.as_slice(),
        eight.value,
        eight.attributes.as_slice(),
    );
    assert_shows(
        rt,
        alloc,
        &parts,
        "(7, [KeyValue { \
        key: Key { name: StringValue { text: \"ok\" } }, value: Bool(true) }], 8, [])",
    );
}

/// A clock that stands still, and a source that gives the bytes 1, 2, 3 and so on.
#[derive(Drop)]
struct Still {
    since_1970: Duration,
}

impl Clock for Still {
    fn monotonic(&self) -> io::Result<Duration> {
        Ok(self.since_1970)
    }

    fn since_1970(&self) -> io::Result<Duration> {
        Ok(self.since_1970)
    }
}

impl RandomSource for Still {
    fn fill_bytes(&self, buf: &mut [u8]) -> io::Result<()> {
        for (byte, number) in buf.iter_mut().zip(1u8..) {
            *byte = number;
        }
        Ok(())
    }
}

/// A moment is counted in nanoseconds, up to the greatest number. A seed of the bytes 1 to 8 is 0x0807_0605_0403_0201.
#[test]
fn moments_and_seeds(rt: HostRuntime) {
    let rt = &rt;
    let early = Still {
        since_1970: Duration::new(2, 5),
    };
    let late = Still {
        since_1970: Duration::from_secs(u64::MAX),
    };
    let found = (
        now_nanos(&early).expect(rt, "a moment"),
        now_nanos(&late).expect(rt, "a moment"),
        random_seed(&early).expect(rt, "a seed"),
    );
    let text = "(2000000005, 18446744073709551615, 578437695752307201)";
    assert_shows(rt, rt.alloc(), &found, text);
}
