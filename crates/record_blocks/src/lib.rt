//! The blocks of records and alarms (IEC 61158-6-10, 5.2.3, 5.2.5 and 5.2.6): what each one means, and how its fields are
//! read and written. Crate `block_codec` adds the block header.
#![tactic(auto)]

mod alarm_ack;
mod alarm_data;
mod alarm_notification;
mod filter_data;
mod im0;
mod im1;
mod im2;
mod im3;
mod im4;
mod read_record;
mod record_header;
mod write_record;

pub use alarm_ack::{AlarmAck, alarm_ack_at, alarm_ack_len, put_alarm_ack};
pub use alarm_data::AlarmData;
pub use alarm_notification::{
    AlarmNotification, alarm_front, alarm_notification_at, alarm_notification_len,
    put_alarm_notification,
};
pub use filter_data::{
    FilterModule, FilterModules, FilterSubmodule, ImFilterData, filter_data_at, filter_data_len,
    put_filter_data,
};
pub use im0::{Im0, im0_at, im0_len, put_im0};
pub use im1::{Im1, im1_at, im1_len, put_im1};
pub use im2::{Im2, im2_at, im2_len, put_im2};
pub use im3::{Im3, im3_at, im3_len, put_im3};
pub use im4::{Im4, im4_at, im4_len, put_im4};
pub use read_record::{
    IodReadReq, IodReadRes, iod_read_req_at, iod_read_req_len, iod_read_res_at, iod_read_res_len,
    put_iod_read_req, put_iod_read_res,
};
pub use record_header::RecordHeader;
pub use write_record::{
    IodWriteReq, IodWriteRes, iod_write_req_at, iod_write_req_len, iod_write_res_at,
    iod_write_res_len, put_iod_write_req, put_iod_write_res,
};
