//! Macros that make readers, writers and lengths from one list of fields.

/// Reads the fields of a list, one after the other. Returns the struct and the rest, or the first fault.
#[macro_export]
macro_rules! read_fields {
    ([$bytes:expr] $name:ident { $($fields:tt)* }) => {{
        let rest = $bytes;
        $crate::read_fields!(@ fields rest $name [] $($fields)*)
    }};
    (@ $what:ident $rest:ident $name:ident [$($made:tt)*] _: $kind:ident $($args:literal)*, $($fields:tt)*) => {{
        let $rest = $crate::pass_field!($rest $kind $($args)*)?;
        $crate::read_fields!(@ $what $rest $name [$($made)*] $($fields)*)
    }};
    (@ $what:ident $rest:ident $name:ident [$($made:tt)*] $field:ident: uuid, $($fields:tt)*) => {{
        let ($field, $rest) = $crate::read_field!($rest octets 16)?;
        $crate::read_fields!(@ $what $rest $name [$($made)* $field: $crate::Uuid::from_bytes($field),] $($fields)*)
    }};
    (@ $what:ident $rest:ident $name:ident [$($made:tt)*] $field:ident: uuid by $read:ident($($more:expr),*), $($fields:tt)*) => {{
        let ($field, $rest) = $read($rest, $($more),*)?;
        $crate::read_fields!(@ $what $rest $name [$($made)* $field: $crate::Uuid::from_bytes($field),] $($fields)*)
    }};
    (@ $what:ident $rest:ident $name:ident [$($made:tt)*] $field:ident: ($read:ident, $put:ident, $len:ident), $($fields:tt)*) => {{
        let ($field, $rest) = $read($rest)?;
        $crate::read_fields!(@ $what $rest $name [$($made)* $field,] $($fields)*)
    }};
    (@ $what:ident $rest:ident $name:ident [$($made:tt)*] $field:ident: $kind:ident by $read:ident($($more:expr),*), $($fields:tt)*) => {{
        let ($field, $rest) = $read($rest, $($more),*)?;
        $crate::read_fields!(@ $what $rest $name [$($made)* $field,] $($fields)*)
    }};
    (@ $what:ident $rest:ident $name:ident [$($made:tt)*] $field:ident: $kind:ident $($args:literal)*, $($fields:tt)*) => {{
        let ($field, $rest) = $crate::read_field!($rest $kind $($args)*)?;
        $crate::read_fields!(@ $what $rest $name [$($made)* $field,] $($fields)*)
    }};
    (@ fields $rest:ident $name:ident [$($made:tt)*]) => {
        Ok(($name { $($made)* }, $rest))
    };
    (@ body $rest:ident $name:ident [$($made:tt)*]) => {{
        $crate::ended($rest)?;
        Ok($name { $($made)* })
    }};
}

/// Reads all that BlockLength counts: the version and the fields of a list. No octet may follow them.
#[macro_export]
macro_rules! read_body {
    ([$bytes:expr] $name:ident { $($fields:tt)* }) => {{
        let rest = $crate::version_at($bytes)?;
        $crate::read_fields!(@ body rest $name [] $($fields)*)
    }};
}

/// Reads a field with no name. Returns the rest.
#[macro_export]
macro_rules! pass_field {
    ($rest:ident blank $size:literal) => {
        $crate::blank_at($rest, $size)
    };
    ($rest:ident unchecked $value:literal) => {
        $crate::unchecked_at($rest)
    };
    ($rest:ident fixed $value:literal $field:literal) => {
        $crate::fixed_at($rest, $value, $field)
    };
    ($rest:ident fixed_one $value:literal $field:literal) => {
        $crate::fixed_one_at($rest, $value, $field)
    };
    ($rest:ident fixed_four $value:literal $field:literal) => {
        $crate::fixed_four_at($rest, $value, $field)
    };
}

/// Reads a field. Returns it and the rest.
#[macro_export]
macro_rules! read_field {
    ($rest:ident u8) => {
        $crate::blocks::u8_at($rest)
    };
    ($rest:ident u16) => {
        $crate::blocks::u16_at($rest)
    };
    ($rest:ident u32) => {
        $crate::blocks::u32_at($rest)
    };
    ($rest:ident octets $size:literal) => {
        $crate::blocks::octets_at::<$size>($rest)
    };
    ($rest:ident mac) => {
        $crate::mac_at($rest)
    };
    ($rest:ident ranged $least:literal $greatest:literal $field:literal) => {
        $crate::ranged_at($rest, $least, $greatest, $field)
    };
}

/// Appends the fields of a list, one after the other. There must be room.
#[macro_export]
macro_rules! put_fields {
    ([$out:ident, $value:ident] $name:ident { $($fields:tt)* }) => {
        $crate::put_fields!(@ $out $value $($fields)*)
    };
    (@ $out:ident $value:ident _: $kind:ident $($args:literal)*, $($fields:tt)*) => {{
        $crate::put_blank!($out $kind $($args)*);
        $crate::put_fields!(@ $out $value $($fields)*)
    }};
    (@ $out:ident $value:ident $field:ident: ($read:ident, $put:ident, $len:ident), $($fields:tt)*) => {{
        $put($out, &$value.$field);
        $crate::put_fields!(@ $out $value $($fields)*)
    }};
    (@ $out:ident $value:ident $field:ident: $kind:ident by $read:ident($($more:expr),*), $($fields:tt)*) => {{
        $crate::put_field!($out $kind $value.$field);
        $crate::put_fields!(@ $out $value $($fields)*)
    }};
    (@ $out:ident $value:ident $field:ident: $kind:ident $($args:literal)*, $($fields:tt)*) => {{
        $crate::put_field!($out $kind $value.$field);
        $crate::put_fields!(@ $out $value $($fields)*)
    }};
    (@ $out:ident $value:ident) => {
        ()
    };
}

/// Appends a field with no name.
#[macro_export]
macro_rules! put_blank {
    ($out:ident blank $size:literal) => {
        $crate::append_zeros::<_, $size>($out)
    };
    ($out:ident unchecked $value:literal) => {
        $crate::blocks::append_u16($out, $value)
    };
    ($out:ident fixed $value:literal $field:literal) => {
        $crate::blocks::append_u16($out, $value)
    };
    ($out:ident fixed_one $value:literal $field:literal) => {
        $crate::blocks::append_u8($out, $value)
    };
    ($out:ident fixed_four $value:literal $field:literal) => {
        $crate::blocks::append_u32($out, $value)
    };
}

/// Appends a field.
#[macro_export]
macro_rules! put_field {
    ($out:ident u8 $value:expr) => {
        $crate::blocks::append_u8($out, $value)
    };
    ($out:ident u16 $value:expr) => {
        $crate::blocks::append_u16($out, $value)
    };
    ($out:ident u32 $value:expr) => {
        $crate::blocks::append_u32($out, $value)
    };
    ($out:ident octets $value:expr) => {
        $crate::blocks::append($out, &$value)
    };
    ($out:ident uuid $value:expr) => {
        $crate::blocks::append($out, $value.as_bytes())
    };
    ($out:ident mac $value:expr) => {
        $crate::blocks::append($out, &$value.octets)
    };
    ($out:ident ranged $value:expr) => {
        $crate::blocks::append_u16($out, $value)
    };
}

/// The number of octets that the fields of a list take.
#[macro_export]
macro_rules! len_fields {
    ([$value:ident] $name:ident { $($fields:tt)* }) => {
        $crate::len_fields!(@ $value 0usize, $($fields)*)
    };
    (@ $value:ident $sum:expr, $field:ident: ($read:ident, $put:ident, $len:ident), $($fields:tt)*) => {
        $crate::len_fields!(@ $value $sum + $len(&$value.$field), $($fields)*)
    };
    (@ $value:ident $sum:expr, $field:ident: $kind:ident by $read:ident($($more:expr),*), $($fields:tt)*) => {
        $crate::len_fields!(@ $value $sum + $crate::len_field!($kind $value.$field), $($fields)*)
    };
    (@ $value:ident $sum:expr, _: $kind:ident $size:literal $($args:literal)*, $($fields:tt)*) => {
        $crate::len_fields!(@ $value $sum + $crate::len_blank!($kind $size), $($fields)*)
    };
    (@ $value:ident $sum:expr, $field:ident: $kind:ident $($args:literal)*, $($fields:tt)*) => {
        $crate::len_fields!(@ $value $sum + $crate::len_field!($kind $value.$field), $($fields)*)
    };
    (@ $value:ident $sum:expr,) => {
        $sum
    };
}

/// The number of octets that a field with no name takes.
#[macro_export]
macro_rules! len_blank {
    (blank $size:literal) => { $size };
    (unchecked $value:literal) => { 2 };
    (fixed $value:literal) => { 2 };
    (fixed_one $value:literal) => { 1 };
    (fixed_four $value:literal) => { 4 };
}

/// The number of octets that a field takes.
#[macro_export]
macro_rules! len_field {
    (u8 $value:expr) => { 1 };
    (u16 $value:expr) => { 2 };
    (u32 $value:expr) => { 4 };
    (octets $value:expr) => { $crate::len_of(&$value) };
    (uuid $value:expr) => { $crate::len_of($value.as_bytes()) };
    (mac $value:expr) => { $crate::len_of(&$value.octets) };
    (ranged $value:expr) => { 2 };
}
