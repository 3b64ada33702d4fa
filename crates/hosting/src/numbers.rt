// Numbers of four bytes, low byte first, as requests and answers have them.

// The bytes of a request, and those of the longest part of an answer.
pub const REQUEST: usize = 148;

pub const OUT: usize = 4096;

// ---- reading

// The first n of some items, or all if there are fewer.
pub fn first<T>(items: &[T], n: usize) -> &[T] {
    &items[..n.min(items.len())]
}

// What is asked of the host: a letter, and numbers behind it.
#[derive(Drop)]
pub struct Request {
    pub bytes: [u8; REQUEST],
}

impl Request {
    pub fn letter(&self) -> u8 {
        self.bytes[0]
    }

    // The number at a place; 0 where the request is over.
    pub fn word(&self, at: usize) -> u32 {
        let Some(rest) = self.bytes.get(at..) else {
            return 0;
        };
        rest.first_chunk()
            .map_or(0, |bytes| u32::from_le_bytes(*bytes))
    }
}

// ---- answering

// What an answer gives as a number of four bytes.
pub trait Number: Copy {
    fn number(self) -> u32;
}

impl Number for u32 {
    fn number(self) -> u32 {
        self
    }
}

impl Number for i32 {
    fn number(self) -> u32 {
        self.cast_unsigned()
    }
}

impl Number for bool {
    fn number(self) -> u32 {
        u32::from(self)
    }
}

// A part of an answer: the numbers that were put, one behind the other. No heap: room for the longest, and how much is in use.
#[derive(Drop)]
pub struct Part {
    bytes: [u8; OUT],
    size: usize,
}

impl Part {
    pub fn new() -> Part {
        Part {
            bytes: [0; OUT],
            size: 0,
        }
    }

    // Puts a number; nothing where there is no room left.
    pub fn put(&mut self, n: impl Number) {
        let Some(rest) = self.bytes.get_mut(self.size..) else {
            return;
        };
        if let Some(place) = rest.first_chunk_mut() {
            *place = n.number().to_le_bytes();
            self.size += 4;
        }
    }

    // Puts several.
    pub fn put_all<T: Number>(&mut self, numbers: &[T]) {
        for n in numbers {
            self.put(*n);
        }
    }

    pub fn write(&self, rt: &impl Print) {
        let _ = rt.write_all(first(&self.bytes, self.size));
    }
}

// Answers a row of numbers.
pub fn answer_all<T: Number>(rt: &impl Print, numbers: &[T]) {
    let mut part = Part::new();
    part.put_all(numbers);
    part.write(rt);
}

// Answers two numbers, and one of 64 bits as two, its low half first.
pub fn answer(rt: &impl Print, a: u32, b: u32, c: u64) {
    let [c0, c1, c2, c3, c4, c5, c6, c7] = c.to_le_bytes();
    let low = u32::from_le_bytes([c0, c1, c2, c3]);
    let high = u32::from_le_bytes([c4, c5, c6, c7]);
    answer_all(rt, &[a, b, low, high]);
}
